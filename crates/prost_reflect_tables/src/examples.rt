//! Worked examples of the definitions: each function has no body, and its contract is what was computed.

ghost use Rattle.prost_reflect_tables.specs.Examples.{Tables, NotLinked};
ghost use Rattle.prost_reflect_tables.specs.DefaultExamples.{Integers, NoIntegers, Floats, NoFloats, Others, NoOthers, Escapes, NoEscapes};
ghost use Rattle.prost_reflect_tables.specs.CheckExamples.{CheckedOptions, KeysAndValues};
ghost use Rattle.prost_reflect_tables.specs.FileExamples.{ContentsAndTables};
ghost use Rattle.prost_reflect_tables.specs.LinkingExamples.{OptionBytes, KindsAndLabels, PackedAndPresent, Orders, NamesInJson};

/// The schema that tables give, for a field of each form.
pub fn shown_tables()
    ensures { Tables }
{}

/// Tables that are not linked.
pub fn tables_not_linked()
    ensures { NotLinked }
{}

/// Written defaults of each kind.
pub fn defaults_read()
    ensures integers { Integers }
    ensures floats { Floats }
    ensures others { Others }
    ensures escapes { Escapes }
{}

/// Texts that are no default of their kind.
pub fn defaults_refused()
    ensures integers { NoIntegers }
    ensures floats { NoFloats }
    ensures others { NoOthers }
    ensures escapes { NoEscapes }
{}

/// Option bytes, and what linking makes of kinds, labels, packing, presence, orders and names in JSON.
pub fn linking()
    ensures options { OptionBytes }
    ensures kinds { KindsAndLabels }
    ensures packed { PackedAndPresent }
    ensures orders { Orders }
    ensures json { NamesInJson }
{}

/// Option bytes, and keys and values of map entries, as the checks take them.
pub fn checking()
    ensures options { CheckedOptions }
    ensures entries { KeysAndValues }
{}

/// Files of equal contents that are not one value, and files of unequal contents that give one table.
pub fn contents_and_tables()
    ensures { ContentsAndTables }
{}
