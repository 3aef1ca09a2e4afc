//! Whether one of the definitions of a list passes a test.

ghost use Rattle.std.specs.Prelude.{◌≡◌, Bool, map};
ghost use Rattle.std.specs.List.{list_any};
ghost use Rattle.prost_reflect_types.specs.declared.FieldDescriptorProto.{FieldDescriptorProto};
ghost use Rattle.prost_reflect_types.specs.declared.FileDescriptorProto.{FileDescriptorProto};
ghost use Rattle.prost_reflect_types.specs.declared.MethodDescriptorProto.{MethodDescriptorProto};
ghost use Rattle.prost_reflect_tables.specs.Faults.{any_field};
ghost use Rattle.prost_reflect_tables.specs.Flat.{DefinitionRow, FlatMessageRow, FlatEnumRow, FlatServiceRow};
ghost use Rattle.prost_reflect_flat.specs.FlatViews.{definition_row, file_list, message_row, enum_row, service_row, flat_rows};
ghost use Rattle.prost_reflect_tables.specs.Walks.{Computes};

use prost_reflect_flat::{Definition, Flat, FlatEnum, FlatMessage, FlatService};
use prost_reflect_types::{FieldDescriptorProto, FileDescriptorProto, MethodDescriptorProto};

/// Whether one of the items passes the test.
pub fn any<T, F: Fn(&T) -> bool>(items: &[T], test: &F) -> bool
    requires { F.IsAlwaysCallable test.now }
    ensures { (p : T → Bool) → Computes F.Fn test.now p → result ≡ list_any p items.now }
{
    for item in items {
        if test(item) {
            return true;
        }
    }
    false
}

/// Whether one of the definitions passes the test.
pub fn any_definition<'a, R, F: Fn(&Definition<'a, R>) -> bool>(
    definitions: &[Definition<'a, R>],
    test: &F,
) -> bool
    requires { F.IsAlwaysCallable test.now }
    ensures { (p : DefinitionRow R → Bool) → Computes F.Fn test.now (λ d. p (definition_row d))
        → result ≡ list_any p (map definition_row definitions.now) }
{
    any(definitions, test)
}

/// Whether one of the messages passes the test.
pub fn any_message<'a, F: Fn(&FlatMessage<'a>) -> bool>(
    messages: &[FlatMessage<'a>],
    test: &F,
) -> bool
    requires { F.IsAlwaysCallable test.now }
    ensures { (p : FlatMessageRow → Bool) → Computes F.Fn test.now (λ m. p (message_row m))
        → result ≡ list_any p (map message_row messages.now) }
{
    any(messages, test)
}

/// Whether one of the enums passes the test.
pub fn any_enum<'a, F: Fn(&FlatEnum<'a>) -> bool>(enums: &[FlatEnum<'a>], test: &F) -> bool
    requires { F.IsAlwaysCallable test.now }
    ensures { (p : FlatEnumRow → Bool) → Computes F.Fn test.now (λ e. p (enum_row e)) → result ≡ list_any p (map enum_row enums.now) }
{
    any(enums, test)
}

/// Whether one of the services passes the test.
pub fn any_service<'a, F: Fn(&FlatService<'a>) -> bool>(
    services: &[FlatService<'a>],
    test: &F,
) -> bool
    requires { F.IsAlwaysCallable test.now }
    ensures { (p : FlatServiceRow → Bool) → Computes F.Fn test.now (λ s. p (service_row s))
        → result ≡ list_any p (map service_row services.now) }
{
    any(services, test)
}

/// Whether one of the files passes the test.
pub fn any_file<'a, F: Fn(&&'a FileDescriptorProto) -> bool>(
    files: &[&'a FileDescriptorProto],
    test: &F,
) -> bool
    requires { F.IsAlwaysCallable test.now }
    ensures { (p : FileDescriptorProto → Bool) → Computes F.Fn test.now (λ f. p f.now) → result ≡ list_any p (file_list files.now) }
{
    any(files, test)
}

/// Whether a field of one of the messages passes the test.
fn any_in_messages<'a, F: Fn(&Definition<'a, FieldDescriptorProto>) -> bool>(
    messages: &[FlatMessage<'a>],
    test: &F,
) -> bool
    requires { F.IsAlwaysCallable test.now }
    ensures { (p : DefinitionRow FieldDescriptorProto → Bool) → Computes F.Fn test.now (λ d. p (definition_row d))
        → result ≡ list_any (λ m. list_any p m.fields) (map message_row messages.now) }
{
    for message in messages {
        if any_definition(message.fields.as_slice(), test) {
            return true;
        }
    }
    false
}

/// Whether a field of a message or an extension passes the test.
pub fn any_field<'a, F: Fn(&Definition<'a, FieldDescriptorProto>) -> bool>(
    flat: &Flat<'a>,
    test: &F,
) -> bool
    requires { F.IsAlwaysCallable test.now }
    ensures { (p : DefinitionRow FieldDescriptorProto → Bool) → Computes F.Fn test.now (λ d. p (definition_row d))
        → result ≡ any_field p (flat_rows flat.now) }
{
    any_in_messages(flat.messages.as_slice(), test)
        || any_definition(flat.extensions.as_slice(), test)
}

/// Whether a method of one of the services passes the test.
pub fn any_method<'a, F: Fn(&Definition<'a, MethodDescriptorProto>) -> bool>(
    services: &[FlatService<'a>],
    test: &F,
) -> bool
    requires { F.IsAlwaysCallable test.now }
    ensures { (p : DefinitionRow MethodDescriptorProto → Bool) → Computes F.Fn test.now (λ d. p (definition_row d))
        → result ≡ list_any (λ s. list_any p s.methods) (map service_row services.now) }
{
    for service in services {
        if any_definition(service.methods.as_slice(), test) {
            return true;
        }
    }
    false
}
