//! Records: values and their bytes, and bytes that fail.

ghost use Rattle.mb_model_examples.specs.RecordExamples.{KeyRecords, LayerRecords, EntryRecords, RootRecords, RegionRecords, StatementRecords, ChainRecords, PublicRecords, BodyRecords, FailingRecords};
ghost use Rattle.mb_model_examples.specs.SegmentExamples.{SegmentExamples, WrittenExamples};
ghost use Rattle.mb_model_examples.specs.HeaderExamples.{HeaderRecords, LogRecords, FailingHeaders};

/// How an independent program spelled keys, layers, entries, roots, regions, statements, chains, the public record and
/// the signed part of orders.
pub fn records_are_spelled()
    ensures keys { KeyRecords }
    ensures layers { LayerRecords }
    ensures entries { EntryRecords }
    ensures roots { RootRecords }
    ensures regions { RegionRecords }
    ensures statements { StatementRecords }
    ensures chains { ChainRecords }
    ensures public { PublicRecords }
    ensures bodies { BodyRecords }
{}

/// Where bytes that spell no entry, root or region fail.
pub fn failing_records()
    ensures { FailingRecords }
{}

/// How an independent program spelled headers of a flash in segments and a sector of its log.
pub fn headers_are_spelled()
    ensures headers { HeaderRecords }
    ensures log { LogRecords }
{}

/// Where bytes that spell no header fail.
pub fn failing_headers()
    ensures { FailingHeaders }
{}

/// What small flashes in segments hold, and what stands in a flash that is written from nothing.
pub fn segments_are_held()
    ensures held { SegmentExamples }
    ensures written { WrittenExamples }
{}
