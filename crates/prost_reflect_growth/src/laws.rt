//! What is proved of files that are added to others: each function has no body, and its contract is a law.

ghost use Rattle.prost_reflect_growth.specs.Growth.{FlatGrows, PlacesGrow, OrderGrows};
ghost use Rattle.prost_reflect_growth.specs.Stays.{FieldStays, ExtendeeStays};
ghost use Rattle.prost_reflect_growth.specs.RowsGrow.{PlacesMove, FurtherOrdered, RowsGrow};
ghost use Rattle.prost_reflect_growth.specs.Untouched.{UntouchedStays};
ghost use Rattle.prost_reflect_growth.specs.ChecksGrow.{ChecksGrow};
ghost use Rattle.prost_reflect_growth.specs.TablesGrow.{TablesGrow, AddedRefuse};
ghost use Rattle.prost_reflect_growth.specs.NumbersKnown.{NumbersKnown};
ghost use Rattle.prost_reflect_growth.specs.Merging.{OrderedGrows, OrderedStays, ValuesGrow, ValuesStay, SortedGrows};
ghost use Rattle.prost_reflect_growth.specs.CatalogGrow.{FilesGrow, ServicesGrow, EnumsGrow, ListsGrow, ListsStay, ListsAdded, MessagesGrow};
ghost use Rattle.prost_reflect_growth.specs.ExtensionsGrow.{ExtensionsGrow, ExtensionsStay};
ghost use Rattle.prost_reflect_growth.specs.GrownCatalog.{CatalogGrows, GrownIsCatalog};

/// The flat lists of the files that are there stay in front of those of the added ones.
pub fn flat_grows()
    ensures { FlatGrows }
{}

/// A name that is found stays where it is; another one is looked for behind.
pub fn places_grow()
    ensures { PlacesGrow }
{}

/// Rows in order, with further ones put in order, are all of them in order.
pub fn order_grows()
    ensures { OrderGrows }
{}

/// A field whose type is there is linked as before.
pub fn field_stays()
    ensures { FieldStays }
{}

/// An extension whose message is there extends the same.
pub fn extendee_stays()
    ensures { ExtendeeStays }
{}

/// Once further rows are put among fields in order, a field stands behind those of them that have smaller numbers.
pub fn places_move()
    ensures { PlacesMove }
{}

/// It is all one whether further rows are in order before they are put among the fields of a message.
pub fn further_ordered()
    ensures { FurtherOrdered }
{}

/// Old rows stay, but for the rows of added extensions that are put among them; added rows need the added lists alone.
pub fn rows_grow()
    ensures { RowsGrow }
{}

/// A message that no added extension extends keeps its row.
pub fn untouched_stays()
    ensures { UntouchedStays }
{}

/// Each fault of old and added files together is a test of the added definitions.
pub fn checks_grow()
    ensures { ChecksGrow }
{}

/// The tables of all files are the grown ones, where the added definitions have no fault.
pub fn tables_grow()
    ensures { TablesGrow }
{}

/// A fault of the added definitions is one of all files.
pub fn added_refuse()
    ensures { AddedRefuse }
{}

/// Whether a number of an old message is taken is told by its row.
pub fn numbers_known()
    ensures { NumbersKnown }
{}

/// Places in the order of old texts and of added ones, merged, are those of all in order.
pub fn ordered_grows()
    ensures { OrderedGrows }
{}

/// So are the places of the values of enums, in the order of their full names.
pub fn values_grow()
    ensures { ValuesGrow }
{}

/// Places in the order of old texts are in order among all texts, too.
pub fn ordered_stays()
    ensures { OrderedStays }
{}

/// So are the places of the values of old enums among all values.
pub fn values_stay()
    ensures { ValuesStay }
{}

/// The places of all definitions by their names, from those of the old ones.
pub fn sorted_grows()
    ensures { SortedGrows }
{}

/// What stands in old files stays; added files stand behind.
pub fn files_grow()
    ensures { FilesGrow }
{}

/// Old services stay; added ones stand behind.
pub fn services_grow()
    ensures { ServicesGrow }
{}

/// The lists of old enums stay; those of added ones stand behind.
pub fn enums_grow()
    ensures { EnumsGrow }
{}

/// What an old message encloses stays, and added extensions extend it behind the old ones.
pub fn lists_grow()
    ensures { ListsGrow }
{}

/// The lists of a message that no added extension extends stay.
pub fn lists_stay()
    ensures { ListsStay }
{}

/// An added message encloses added definitions alone, and added extensions alone extend it.
pub fn lists_added()
    ensures { ListsAdded }
{}

/// The lists of all messages, from those of the old ones.
pub fn messages_grow()
    ensures { MessagesGrow }
{}

/// The rows of old extensions move behind those of added ones that have smaller numbers; added ones stand among the grown rows.
pub fn extensions_grow()
    ensures { ExtensionsGrow }
{}

/// The row of an old extension stands where it did, where no added extension extends its message.
pub fn extensions_stay()
    ensures { ExtensionsStay }
{}

/// The catalog of all files is the grown one.
pub fn catalog_grows()
    ensures { CatalogGrows }
{}

/// A catalog whose rows are the grown ones is that of all files.
pub fn grown_is_catalog()
    ensures { GrownIsCatalog }
{}
