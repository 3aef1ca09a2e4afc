//! What is proved of the definitions: each function has no body, and its contract is a law.

ghost use Rattle.prost_reflect_laws.specs.Examples.Numbers.{Varints, Zigzag, Kinds, KindRanges, PlainFields};
ghost use Rattle.prost_reflect_laws.specs.Examples.Records.{Records, Unreadable, RawLevels};
ghost use Rattle.prost_reflect_laws.specs.Examples.Fields.{Scalars, Texts, Messages, Oneofs, Extensions};
ghost use Rattle.prost_reflect_laws.specs.Examples.Lists.{Lists};
ghost use Rattle.prost_reflect_laws.specs.Examples.Maps.{Maps};
ghost use Rattle.prost_reflect_laws.specs.Examples.Levels.{Levels, ContentLevels};
ghost use Rattle.prost_reflect_laws.specs.Examples.Unknown.{UnknownRecords};
ghost use Rattle.prost_reflect_laws.specs.Examples.ClosedEnums.{Strays, StrayContents};
ghost use Rattle.prost_reflect_laws.specs.Examples.Contents.{Schemas, Validity, Encodable, WellTypedContents, Kept};
ghost use Rattle.prost_reflect_laws.specs.Examples.Editing.{Merging, OneNumber, Access, Paths};
ghost use Rattle.prost_reflect_laws.specs.Examples.Reductions.{Reductions, NoReductions, Passing};
ghost use Rattle.prost_reflect_laws.specs.Examples.Faults.{Faults};
ghost use Rattle.prost_reflect_laws.specs.Laws.{OneReading, ReadIsSpells, WrittenSpells, AcceptsIsTest, MeaningBySteps, Commute, SameBehind, LevelsFree, AllowedFurther, WrittenIsRead, EntriesMean, ScalarBack, MessageBack, ListBack, PackedBack, MapBack, RecordsMean, EncodedSpells, RecordsAllowed, MergedMeans, PiecesJoin, ReadIsValid, MeaningOrdered, StrayBack, KeptWell, KeptContent, SetWell, MeaningTyped, MeaningLevels, StepsWell, MergedWell, StepsFree, MergesJoin, WrittenPieces, DecodedWell};

pub mod faults;
pub mod instances;

/// Bytes spell at most one list of records.
pub fn one_reading()
    ensures { OneReading }
{}

/// What is read spells, and what spells is read.
pub fn read_is_spells()
    ensures { ReadIsSpells }
{}

/// The spelling of records spells them.
pub fn written_spells()
    ensures { WrittenSpells }
{}

/// Acceptance, as a relation and as a test.
pub fn accepts_is_test()
    ensures { AcceptsIsTest }
{}

/// Records may be read one behind another.
pub fn meaning_by_steps()
    ensures { MeaningBySteps }
{}

/// Records of different numbers that share no oneof commute in what they mean.
pub fn commute()
    ensures { Commute }
{}

/// More levels change no meaning of records that are allowed.
pub fn levels_free()
    ensures { LevelsFree }
{}

/// More levels refuse no records that are allowed.
pub fn allowed_further()
    ensures { AllowedFurther }
{}

/// What is written of a value of a kind is read as that value.
pub fn written_is_read()
    ensures { WrittenIsRead }
{}

/// Where the records of each value are read as it, those of the content mean it.
pub fn entries_mean()
    ensures { EntriesMean }
{}

/// The record of a scalar is read as it.
pub fn scalar_back()
    ensures { ScalarBack }
{}

/// The record of a message is read as it, where the records inside mean it.
pub fn message_back()
    ensures { MessageBack }
{}

/// A record that stays whole as a stray is read as one.
pub fn stray_back()
    ensures { StrayBack }
{}

/// Records of one meaning may stand for one another in front of others.
pub fn same_behind()
    ensures { SameBehind }
{}

/// A list that is not packed is read back where its elements are.
pub fn list_back()
    ensures { ListBack }
{}

/// Scalars in one packed record are read back.
pub fn packed_back()
    ensures { PackedBack }
{}

/// A map in ascending keys is read back where its entries are.
pub fn map_back()
    ensures { MapBack }
{}

/// The records of a content mean it.
pub fn records_mean()
    ensures { RecordsMean }
{}

/// The bytes of a content spell its records.
pub fn encoded_spells()
    ensures { EncodedSpells }
{}

/// The records of a content are allowed exactly within its levels.
pub fn records_allowed()
    ensures { RecordsAllowed }
{}

/// Records merged into a content mean what they mean behind its own.
pub fn merged_means()
    ensures { MergedMeans }
{}

/// Pieces of one message join.
pub fn pieces_join()
    ensures { PiecesJoin }
{}

/// What is read of a payload, and is no stray, is a value of the kind.
pub fn read_is_valid()
    ensures { ReadIsValid }
{}

/// Numbers and keys ascend in what is read.
pub fn meaning_ordered()
    ensures { MeaningOrdered }
{}

/// What is kept of what a well-typed message stores is well-typed.
pub fn kept_well()
    ensures { KeptWell }
{}

/// Of a well-typed content all is kept.
pub fn kept_content()
    ensures { KeptContent }
{}

/// A set at a path keeps a content well-typed.
pub fn set_well()
    ensures { SetWell }
{}

/// The worked examples of varints, zigzag and the payloads of kinds hold.
pub fn worked_numbers()
    ensures varints { Varints }
    ensures zigzag { Zigzag }
    ensures kinds { Kinds }
    ensures kind_ranges { KindRanges }
    ensures plain_fields { PlainFields }
{}

/// The worked examples of records without a type hold.
pub fn worked_records()
    ensures records { Records }
    ensures unreadable { Unreadable }
    ensures raw_levels { RawLevels }
{}

/// The worked examples of fields of one value hold.
pub fn worked_fields()
    ensures scalars { Scalars }
    ensures texts { Texts }
    ensures messages { Messages }
    ensures oneofs { Oneofs }
    ensures extensions { Extensions }
{}

/// The worked examples of lists hold.
pub fn worked_lists()
    ensures { Lists }
{}

/// The worked examples of maps hold.
pub fn worked_maps()
    ensures { Maps }
{}

/// The worked examples of levels hold.
pub fn worked_levels()
    ensures levels { Levels }
    ensures content_levels { ContentLevels }
{}

/// The worked examples of unknown records hold.
pub fn worked_unknown()
    ensures { UnknownRecords }
{}

/// The worked examples of closed enums hold.
pub fn worked_closed_enums()
    ensures strays { Strays }
    ensures stray_contents { StrayContents }
{}

/// The worked examples of contents that fit and that do not hold.
pub fn worked_contents()
    ensures schemas { Schemas }
    ensures validity { Validity }
    ensures encodable { Encodable }
    ensures well_typed_contents { WellTypedContents }
    ensures kept { Kept }
{}

/// The worked examples of merging, setting and clearing hold.
pub fn worked_editing()
    ensures merging { Merging }
    ensures one_number { OneNumber }
    ensures access { Access }
    ensures paths { Paths }
{}

/// The worked examples of reductions, and of what passes through them hold.
pub fn worked_reductions()
    ensures reductions { Reductions }
    ensures no_reductions { NoReductions }
    ensures passing { Passing }
{}

/// The worked examples of faults hold.
pub fn worked_faults()
    ensures { Faults }
{}

/// What is read is well-typed.
pub fn meaning_typed()
    ensures { MeaningTyped }
{}

/// What is allowed within so many levels means a content of at most as many.
pub fn meaning_levels()
    ensures { MeaningLevels }
{}

/// Records that are allowed keep a content well-typed, and of the levels that are left.
pub fn steps_well()
    ensures { StepsWell }
{}

/// What is merged stays well-typed.
pub fn merged_well()
    ensures { MergedWell }
{}

/// More levels change nothing of what allowed records make of a content.
pub fn steps_free()
    ensures { StepsFree }
{}

/// Pieces merged one behind the other are merged as one.
pub fn merges_join()
    ensures { MergesJoin }
{}

/// The records of what pieces mean may stand for the pieces in front of others.
pub fn written_pieces()
    ensures { WrittenPieces }
{}

/// What is decoded is well-typed, and nests no deeper than it was allowed to.
pub fn decoded_well()
    ensures { DecodedWell }
{}
