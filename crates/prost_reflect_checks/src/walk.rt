//! Whether one of the added fields and extensions passes a test that looks at what its texts mean.

ghost use Rattle.std.specs.Prelude.{◌≡◌, Bool, map};
ghost use Rattle.std.specs.List.{list_any};
ghost use Rattle.prost_reflect_types.specs.declared.FieldDescriptorProto.{FieldDescriptorProto};
ghost use Rattle.prost_reflect_tables.specs.Flat.{DefinitionRow};
ghost use Rattle.prost_reflect_flat.specs.FlatViews.{flat_rows};
ghost use Rattle.prost_reflect_tables.specs.Linking.{links_of};
ghost use Rattle.prost_reflect_tables.specs.Resolved.{ResolvedRow, resolve};
ghost use Rattle.prost_reflect_resolving.specs.Indexed.{all_rows};
ghost use Rattle.prost_reflect_resolving.specs.Resolved.{resolved_row, resolved_lists, IsResolved};
ghost use Rattle.prost_reflect_tables.specs.Walks.{Computes};

use prost_reflect_definition_checks::walk::any;
use prost_reflect_flat::Flat;
use prost_reflect_resolving::{Resolved, ResolvedField};

fn any_resolved<'f, F: Fn(&ResolvedField<'f>) -> bool>(
    fields: &[ResolvedField<'f>],
    test: &F,
) -> bool
    requires { F.IsAlwaysCallable test.now }
    ensures { (p : ResolvedRow → Bool) → Computes F.Fn test.now (λ f. p (resolved_row f))
        → result ≡ list_any p (map resolved_row fields.now) }
{
    any(fields, test)
}

fn any_resolved_in<'f, F: Fn(&ResolvedField<'f>) -> bool>(
    lists: &[Vec<ResolvedField<'f>>],
    test: &F,
) -> bool
    requires { F.IsAlwaysCallable test.now }
    ensures { (p : ResolvedRow → Bool) → Computes F.Fn test.now (λ f. p (resolved_row f))
        → result ≡ list_any (λ fs. list_any p fs) (resolved_lists lists.now) }
{
    for fields in lists {
        if any_resolved(fields.as_slice(), test) {
            return true;
        }
    }
    false
}

/// Whether a resolved field of one of the messages passes the test.
pub fn any_resolved_field<'f, F: Fn(&ResolvedField<'f>) -> bool>(
    resolved: &Resolved<'f>,
    flat: &Flat,
    test: &F,
) -> bool
    requires callable { F.IsAlwaysCallable test.now }
    requires resolved { IsResolved resolved.now (flat_rows flat.now) }
    ensures { (p : ResolvedRow → Bool) (q : DefinitionRow FieldDescriptorProto → Bool)
        → Computes F.Fn test.now (λ f. p (resolved_row f))
        → ((d : DefinitionRow FieldDescriptorProto)
        → p (resolve (links_of (all_rows resolved.now.index.base (flat_rows flat.now))) d) ≡ q d)
        → result ≡ list_any (λ m. list_any q m.fields) (flat_rows flat.now).messages }
{
    any_resolved_in(resolved.fields.as_slice(), test)
}

/// Whether a resolved extension passes the test.
pub fn any_resolved_extension<'f, F: Fn(&ResolvedField<'f>) -> bool>(
    resolved: &Resolved<'f>,
    flat: &Flat,
    test: &F,
) -> bool
    requires callable { F.IsAlwaysCallable test.now }
    requires resolved { IsResolved resolved.now (flat_rows flat.now) }
    ensures { (p : ResolvedRow → Bool) (q : DefinitionRow FieldDescriptorProto → Bool)
        → Computes F.Fn test.now (λ f. p (resolved_row f))
        → ((d : DefinitionRow FieldDescriptorProto)
        → p (resolve (links_of (all_rows resolved.now.index.base (flat_rows flat.now))) d) ≡ q d)
        → result ≡ list_any q (flat_rows flat.now).extensions }
{
    any_resolved(resolved.extensions.as_slice(), test)
}
