//! Services and their methods, with the message types that they name.

ghost use Rattle.std.specs.Prelude.{◌≡◌, ◌++◌, IfOk, map};
ghost use Rattle.prost_reflect_base.specs.Below.{catalog_below};
ghost use Rattle.prost_reflect_tables.specs.CatalogRows.{method_table_row, service_table_row};
ghost use Rattle.prost_reflect_flat.specs.FlatViews.{definition_row, flat_rows, service_row};
ghost use Rattle.prost_reflect_resolving.specs.Indexed.{all_rows, IsIndex};
ghost use Rattle.prost_reflect_tables.specs.LinkedCatalog.{linked_method, linked_service};
ghost use Rattle.prost_reflect_tables.specs.Linking.{links_of};

use prost_reflect_flat::{Definition, Flat, FlatService};
use prost_reflect_growth::linked_identity;
use prost_reflect_resolving::{Index, message_place};
use prost_reflect_shared::shared_list::SharedList;
use prost_reflect_tables::{MethodTable, ServiceTable};
use prost_reflect_types::MethodDescriptorProto;
use std::alloc::{AllocError, Global};

fn linked_method(
    alloc: Global,
    index: &Index,
    flat: &Flat,
    method: &Definition<MethodDescriptorProto>,
) -> Result<MethodTable, AllocError>
    requires { IsIndex index.now (flat_rows flat.now) }
    ensures { IfOk result
        (λ m. method_table_row m
        ≡ linked_method (links_of (all_rows index.now.base (flat_rows flat.now))) (definition_row method.now)) }
{
    let proto = method.proto;
    Ok(MethodTable {
        id: linked_identity(alloc, method, &proto.name)?,
        input: message_place(index, flat, &proto.input_type).unwrap_or(0),
        output: message_place(index, flat, &proto.output_type).unwrap_or(0),
    })
}

fn linked_methods(
    alloc: Global,
    index: &Index,
    flat: &Flat,
    methods: &[Definition<MethodDescriptorProto>],
) -> Result<Vec<MethodTable>, AllocError>
    requires { IsIndex index.now (flat_rows flat.now) }
    ensures { IfOk result
        (λ v. map method_table_row v.items
        ≡ map (linked_method (links_of (all_rows index.now.base (flat_rows flat.now))))
        (map definition_row methods.now)) }
{
    let mut tables = Vec::with_capacity(alloc, methods.len())?;
    for method in methods {
        tables.push(linked_method(alloc, index, flat, method)?)?;
    }
    Ok(tables)
}

fn linked_service(
    alloc: Global,
    index: &Index,
    flat: &Flat,
    service: &FlatService,
) -> Result<ServiceTable, AllocError>
    requires { IsIndex index.now (flat_rows flat.now) }
    ensures { IfOk result
        (λ s. service_table_row s
        ≡ linked_service (links_of (all_rows index.now.base (flat_rows flat.now))) (service_row service.now)) }
{
    let definition = &service.definition;
    Ok(ServiceTable {
        id: linked_identity(alloc, definition, &definition.proto.name)?,
        methods: linked_methods(alloc, index, flat, service.methods.as_slice())?,
    })
}

/// The services of the pool, which are shared, and the added ones, with their methods.
///
/// # Errors
///
/// `AllocError` if out of memory.
pub fn linked_services(
    alloc: Global,
    index: &Index,
    flat: &Flat,
    services: &[FlatService],
) -> Result<SharedList<ServiceTable>, AllocError>
    requires { IsIndex index.now (flat_rows flat.now) }
    ensures { IfOk result
        (λ l. map service_table_row l
        ≡ (catalog_below index.now.base).services
        ++ map (linked_service (links_of (all_rows index.now.base (flat_rows flat.now))))
        (map service_row services.now)) }
{
    let mut tables = index.base.pool().catalog().services.clone()?;
    for service in services {
        tables.push(linked_service(alloc, index, flat, service)?)?;
    }
    Ok(tables)
}
