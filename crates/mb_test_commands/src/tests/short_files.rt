//! Files that end where a field or a word begins: the offsets at which they end, and the line that reports it.

use super::births::owned_device_goes_through;
use super::failures::{FILES_ARE_MADE, TOOLS_ARE_MADE};
use super::{A_NEW_DEVICE, A_WHOLE_LIFE, ShortFile, Step, Told};
use mb_model::{FLASH_LENGTH, IMAGE_LENGTH};
use std::test::Fail;

/// Where the fields of a key file begin.
const KEY: &[usize] = &[0, 4, 20, 52];

/// Where the fields of a public key begin.
const PUBLIC: &[usize] = &[0, 4, 8, 24];

/// Where areas of an image begin, and its last byte.
const IMAGE: &[usize] = &[
    0,
    4_096,
    8_192,
    262_144,
    FLASH_LENGTH,
    FLASH_LENGTH + 4_096,
    FLASH_LENGTH + 12_288,
    FLASH_LENGTH + 20_480,
    IMAGE_LENGTH - 1,
];

/// Where the fields of the chain begin, entry by entry, and its end without a statement.
const CHAIN_FIELDS: &[usize] = &[
    0, 4, 6, 7, 23, 27, 31, 47, 79, 80, 81, 82, 86, 90, 106, 138, 170, 174, 175, 176, 177, 178,
    179, 180, 2_528, 2_529, 2_533, 2_537, 2_538, 2_539, 2_540, 2_541, 2_542, 2_543, 2_544, 2_548,
    2_552, 2_568, 2_600, 2_632, 2_636, 2_637, 2_638, 2_639, 2_643, 2_647, 2_663, 2_695, 2_696,
    2_697, 2_698, 2_699, 5_047, 5_048, 5_052, 5_056, 5_057, 5_058, 5_059, 5_060, 5_061, 5_062,
    5_063, 5_067, 5_071, 5_087, 5_119, 5_151, 5_155, 5_156, 5_157, 5_158, 5_162, 5_166, 5_182,
    5_214, 5_215, 5_216, 5_217, 5_221, 5_225, 5_241, 5_273, 5_274, 7_622, 7_623, 7_627, 7_631,
    7_632, 7_633, 7_634, 7_635, 7_636, 7_637, 7_638, 7_642, 7_646, 7_662, 7_694, 7_726, 7_730,
    7_731, 7_732, 7_733, 7_737, 7_741, 7_757, 7_789, 7_821, 7_825, 7_826, 7_827, 7_828, 7_832,
    7_836, 7_852, 7_884, 7_885, 10_233, 10_234, 10_238, 10_242, 10_243, 10_244, 10_245, 10_246,
    10_247, 10_248, 10_249, 10_253, 10_257, 10_273, 10_305, 10_337, 10_341, 10_342, 10_343, 10_344,
    10_348, 10_352, 10_368, 10_400, 10_432, 10_436, 10_437, 10_438, 10_439, 10_443, 10_447, 10_463,
    10_495, 10_527, 10_531, 10_532, 12_880, 12_881, 12_885, 12_889, 12_893, 12_894, 12_895, 12_899,
    12_903, 12_919, 12_951, 15_299, 15_300, 15_304, 15_308, 15_309, 15_310, 15_311, 15_312, 15_313,
    15_314, 15_315, 15_319, 15_323, 15_339, 15_371, 15_403, 15_407, 15_408, 15_409, 15_410, 15_414,
    15_418, 15_434, 15_466, 15_498, 15_502, 15_503, 15_504, 15_505, 15_509, 15_513, 15_529, 15_561,
    15_593, 15_597, 15_598, 15_602, 15_606, 15_622, 15_654, 18_002, 18_003, 18_007, 18_011, 18_012,
    18_013, 18_014, 18_015, 18_016, 18_017, 18_018, 18_022, 18_026, 18_042, 18_074, 18_106, 18_110,
    18_111, 18_112, 18_113, 18_117, 18_121, 18_137, 18_169, 18_201, 18_205, 18_206, 18_207, 18_208,
    18_212, 18_216, 18_232, 18_264, 18_296, 18_300, 18_301, 20_649,
];

/// Where the mark of a statement and the fields of the statement begin on its chain.
const STATEMENT: &[usize] = &[15_299, 15_300, 15_304, 15_305, 15_310];

/// Where the words of the line of a countersigned load begin, and the fields of its order.
const LOAD: &[usize] = &[
    0, 8, 10, 12, 14, 22, 24, 32, 38, 42, 4_738, 4_740, 4_742, 4_746, 9_442, 9_444, 9_448,
];

/// Where the words of the line of a load with targets begin, and the fields of its order.
const TARGETS: &[usize] = &[
    0, 8, 10, 12, 14, 16, 48, 50, 58, 60, 62, 126, 128, 130, 194, 202, 204, 206, 214, 220, 224,
    4_920,
];

/// Inputs of the commands on devices, chains and statements end early.
const DEVICES_ARE_SHORT: &[ShortFile] = &[
    ShortFile {
        words: "run image events draw",
        name: "image",
        status: 3,
        told: Told::Line("input image length\n"),
        offsets: IMAGE,
    },
    ShortFile {
        words: "run image every draw",
        name: "every",
        status: 3,
        told: Told::Line("input script line 2\n"),
        offsets: &[7, 9, 13],
    },
    ShortFile {
        words: "run image every draw",
        name: "every",
        status: 3,
        told: Told::Line("input script line 3\n"),
        offsets: &[20, 22],
    },
    ShortFile {
        words: "run image every draw",
        name: "every",
        status: 3,
        told: Told::Line("input script line 4\n"),
        offsets: &[31, 33],
    },
    ShortFile {
        words: "run image every draw",
        name: "every",
        status: 3,
        told: Told::Line("input script line 5\n"),
        offsets: &[42, 44, 46],
    },
    ShortFile {
        words: "run image every draw",
        name: "every",
        status: 3,
        told: Told::Line("input script line 6\n"),
        offsets: &[53, 55, 60, 62, 67],
    },
    ShortFile {
        words: "run image every draw",
        name: "every",
        status: 3,
        told: Told::Line("input script line 7\n"),
        offsets: &[78],
    },
    ShortFile {
        words: "run image events draw",
        name: "draw",
        status: 3,
        told: Told::Line("input noise length\n"),
        offsets: &[0, 31],
    },
    ShortFile {
        words: "rehearse image events draw",
        name: "image",
        status: 3,
        told: Told::Line("input image length\n"),
        offsets: IMAGE,
    },
    ShortFile {
        words: "rehearse image every draw",
        name: "every",
        status: 3,
        told: Told::Line("input script line 6\n"),
        offsets: &[53, 55, 60, 62, 67],
    },
    ShortFile {
        words: "rehearse image events draw",
        name: "draw",
        status: 3,
        told: Told::Line("input noise length\n"),
        offsets: &[0, 31],
    },
    ShortFile {
        words: "showimage image",
        name: "image",
        status: 3,
        told: Told::Line("input image length\n"),
        offsets: IMAGE,
    },
    ShortFile {
        words: "history public0 chain",
        name: "public0",
        status: 3,
        told: Told::Offset("input root at"),
        offsets: PUBLIC,
    },
    ShortFile {
        words: "history public0 chain",
        name: "chain",
        status: 7,
        told: Told::Offset("refused 20"),
        offsets: CHAIN_FIELDS,
    },
    ShortFile {
        words: "history public0 attached",
        name: "attached",
        status: 7,
        told: Told::Offset("refused 20"),
        offsets: STATEMENT,
    },
    ShortFile {
        words: "cutat image events draw 1 00",
        name: "image",
        status: 3,
        told: Told::Line("input image length\n"),
        offsets: IMAGE,
    },
    ShortFile {
        words: "cutat image every draw 1 00",
        name: "every",
        status: 3,
        told: Told::Line("input script line 1\n"),
        offsets: &[0],
    },
    ShortFile {
        words: "cutat image every draw 1 00",
        name: "every",
        status: 3,
        told: Told::Line("input script line 6\n"),
        offsets: &[53, 55, 60, 62, 67, 69, 70],
    },
    ShortFile {
        words: "cutat image every draw 1 00",
        name: "every",
        status: 3,
        told: Told::Line("input script line 7\n"),
        offsets: &[78],
    },
    ShortFile {
        words: "cutat image events draw 1 00",
        name: "draw",
        status: 3,
        told: Told::Line("input noise length\n"),
        offsets: &[0, 31],
    },
    ShortFile {
        words: "verify public0 chain 1",
        name: "public0",
        status: 3,
        told: Told::Offset("input root at"),
        offsets: PUBLIC,
    },
    ShortFile {
        words: "verify public0 chain 1",
        name: "chain",
        status: 7,
        told: Told::Offset("refused 20"),
        offsets: CHAIN_FIELDS,
    },
    ShortFile {
        words: "verify public0 attached 1",
        name: "attached",
        status: 7,
        told: Told::Offset("refused 20"),
        offsets: STATEMENT,
    },
    ShortFile {
        words: "audit image public0 chain 1",
        name: "image",
        status: 3,
        told: Told::Line("input image length\n"),
        offsets: IMAGE,
    },
    ShortFile {
        words: "audit image public0 chain 1",
        name: "public0",
        status: 3,
        told: Told::Offset("input root at"),
        offsets: PUBLIC,
    },
    ShortFile {
        words: "audit image public0 chain 1",
        name: "chain",
        status: 7,
        told: Told::Offset("refused 20"),
        offsets: CHAIN_FIELDS,
    },
    ShortFile {
        words: "audit image public0 attached 1",
        name: "attached",
        status: 7,
        told: Told::Offset("refused 20"),
        offsets: STATEMENT,
    },
    ShortFile {
        words: "chain image out",
        name: "image",
        status: 3,
        told: Told::Line("input image length\n"),
        offsets: IMAGE,
    },
    ShortFile {
        words: "attach chain statement out",
        name: "chain",
        status: 3,
        told: Told::Offset("input chain at"),
        offsets: CHAIN_FIELDS,
    },
    ShortFile {
        words: "attach attached statement out",
        name: "attached",
        status: 3,
        told: Told::Offset("input chain at"),
        offsets: STATEMENT,
    },
    ShortFile {
        words: "attach chain statement out",
        name: "statement",
        status: 3,
        told: Told::Line("input statement line 1\n"),
        offsets: &[0, 8, 10, 20],
    },
    ShortFile {
        words: "migrate image out",
        name: "image",
        status: 3,
        told: Told::Line("input image length\n"),
        offsets: IMAGE,
    },
];

/// Inputs of the commands on keys and orders end early.
const ORDERS_ARE_SHORT: &[ShortFile] = &[
    ShortFile {
        words: "factory birth maker public1 code out",
        name: "birth",
        status: 3,
        told: Told::Line("input noise length\n"),
        offsets: &[0, 32, 47],
    },
    ShortFile {
        words: "factory birth maker public1 code out",
        name: "maker",
        status: 3,
        told: Told::Offset("input key at"),
        offsets: KEY,
    },
    ShortFile {
        words: "factory birth maker public1 code out",
        name: "public1",
        status: 3,
        told: Told::Offset("input owner at"),
        offsets: PUBLIC,
    },
    ShortFile {
        words: "keygen noise0 out out",
        name: "noise0",
        status: 3,
        told: Told::Line("input noise length\n"),
        offsets: &[0, 31],
    },
    ShortFile {
        words: "sign officer2 full out",
        name: "officer2",
        status: 3,
        told: Told::Offset("input key at"),
        offsets: KEY,
    },
    ShortFile {
        words: "sign officer2 full out",
        name: "full",
        status: 3,
        told: Told::Line("input draft line 1\n"),
        offsets: &[0, 6, 11],
    },
    ShortFile {
        words: "sign officer2 full out",
        name: "full",
        status: 3,
        told: Told::Line("input draft line 2\n"),
        offsets: &[13, 20, 27],
    },
    ShortFile {
        words: "sign officer2 full out",
        name: "full",
        status: 3,
        told: Told::Line("input draft line 3\n"),
        offsets: &[60, 67, 74],
    },
    ShortFile {
        words: "sign officer2 full out",
        name: "full",
        status: 3,
        told: Told::Line("input draft line 4\n"),
        offsets: &[76, 83, 89, 91],
    },
    ShortFile {
        words: "sign officer2 full out",
        name: "full",
        status: 3,
        told: Told::Line("input draft line 5\n"),
        offsets: &[156, 163, 168, 170],
    },
    ShortFile {
        words: "sign officer2 full out",
        name: "full",
        status: 3,
        told: Told::Line("input draft line 6\n"),
        offsets: &[235, 243],
    },
    ShortFile {
        words: "sign officer2 full out",
        name: "full",
        status: 3,
        told: Told::Line("input draft line 7\n"),
        offsets: &[245, 251, 258],
    },
    ShortFile {
        words: "sign officer2 full out",
        name: "full",
        status: 3,
        told: Told::Line("input draft line 8\n"),
        offsets: &[264, 269],
    },
    ShortFile {
        words: "sign officer2 draft1 out",
        name: "draft1",
        status: 3,
        told: Told::Line("input draft line 1\n"),
        offsets: &[0, 6, 16],
    },
    ShortFile {
        words: "sign officer2 draft1 out",
        name: "draft1",
        status: 3,
        told: Told::Line("input draft line 2\n"),
        offsets: &[18, 24, 32, 40, 72],
    },
    ShortFile {
        words: "sign officer2 draft1 out",
        name: "draft1",
        status: 3,
        told: Told::Line("input draft line 3\n"),
        offsets: &[137, 143],
    },
    ShortFile {
        words: "sign officer2 draft5 out",
        name: "draft5",
        status: 3,
        told: Told::Line("input draft line 1\n"),
        offsets: &[0, 6, 13, 15],
    },
    ShortFile {
        words: "countersign officer2 2 load out",
        name: "officer2",
        status: 3,
        told: Told::Offset("input key at"),
        offsets: KEY,
    },
    ShortFile {
        words: "countersign officer2 2 order6 out",
        name: "order6",
        status: 3,
        told: Told::Line("input order line 1\n"),
        offsets: LOAD,
    },
    ShortFile {
        words: "countersign officer2 2 targets out",
        name: "targets",
        status: 3,
        told: Told::Line("input order line 1\n"),
        offsets: TARGETS,
    },
    ShortFile {
        words: "cosign officer2 2 load draft6 out",
        name: "officer2",
        status: 3,
        told: Told::Offset("input key at"),
        offsets: KEY,
    },
    ShortFile {
        words: "cosign officer2 2 order6 draft6 out",
        name: "order6",
        status: 3,
        told: Told::Line("input order line 1\n"),
        offsets: LOAD,
    },
    ShortFile {
        words: "cosign officer2 2 load draft6 out",
        name: "draft6",
        status: 3,
        told: Told::Line("input draft line 1\n"),
        offsets: &[0, 6, 11],
    },
    ShortFile {
        words: "cosign officer2 2 load draft6 out",
        name: "draft6",
        status: 3,
        told: Told::Line("input draft line 2\n"),
        offsets: &[13, 21],
    },
    ShortFile {
        words: "cosign officer2 2 load draft6 out",
        name: "draft6",
        status: 3,
        told: Told::Line("input draft line 3\n"),
        offsets: &[23, 29],
    },
    ShortFile {
        words: "cosign officer2 2 load draft6 out",
        name: "draft6",
        status: 3,
        told: Told::Line("input draft line 4\n"),
        offsets: &[36, 41],
    },
    ShortFile {
        words: "showorder order6",
        name: "order6",
        status: 3,
        told: Told::Line("input order line 1\n"),
        offsets: LOAD,
    },
    ShortFile {
        words: "showorder targets",
        name: "targets",
        status: 3,
        told: Told::Line("input order line 1\n"),
        offsets: TARGETS,
    },
    ShortFile {
        words: "ordered public1 order6",
        name: "public1",
        status: 3,
        told: Told::Offset("input public at"),
        offsets: PUBLIC,
    },
    ShortFile {
        words: "ordered public1 order6",
        name: "order6",
        status: 3,
        told: Told::Line("input order line 1\n"),
        offsets: LOAD,
    },
    ShortFile {
        words: "showkey officer2",
        name: "officer2",
        status: 3,
        told: Told::Offset("input key at"),
        offsets: KEY,
    },
];

/// Where the fields of an endorsement of two levels begin, and its last byte.
const ENDORSEMENT: &[usize] = &[
    0, 4, 8, 12, 44, 2_188, 2_192, 2_352, 2_356, 2_360, 2_376, 2_408, 2_412, 2_416, 2_448, 4_592,
    4_596, 4_755,
];

/// Inputs of the commands on makers' keys, policies, the code of applications and single chains end early. Those of
/// `fleet` and of `devices` stand beside their registers.
const TOOLS_ARE_SHORT: &[ShortFile] = &[
    ShortFile {
        words: "hsskeygen noise0 1 out out",
        name: "noise0",
        status: 3,
        told: Told::Line("input noise length\n"),
        offsets: &[0, 31],
    },
    ShortFile {
        words: "showmaker hss",
        name: "hss",
        status: 3,
        told: Told::Offset("input key at"),
        offsets: &[0, 4, 5, 37],
    },
    ShortFile {
        words: "endorse hss public0 out",
        name: "hss",
        status: 3,
        told: Told::Offset("input key at"),
        offsets: &[0, 4, 5, 37],
    },
    ShortFile {
        words: "endorse hss public0 out",
        name: "public0",
        status: 3,
        told: Told::Offset("input root at"),
        offsets: PUBLIC,
    },
    ShortFile {
        words: "endorsed hss_public public0 endorsement",
        name: "hss_public",
        status: 3,
        told: Told::Offset("input public at"),
        offsets: &[0, 4, 8, 12, 28],
    },
    ShortFile {
        words: "endorsed hss_public public0 endorsement",
        name: "public0",
        status: 3,
        told: Told::Offset("input root at"),
        offsets: PUBLIC,
    },
    ShortFile {
        words: "endorsed hss_public public0 endorsement",
        name: "endorsement",
        status: 7,
        told: Told::Line("refused 28\n"),
        offsets: ENDORSEMENT,
    },
    ShortFile {
        words: "enrol public0 register chain",
        name: "public0",
        status: 3,
        told: Told::Offset("input root at"),
        offsets: PUBLIC,
    },
    ShortFile {
        words: "enrol public0 register chain",
        name: "register",
        status: 3,
        told: Told::Offset("input register at"),
        offsets: &[0, 4],
    },
    ShortFile {
        words: "enrol public0 register chain",
        name: "chain",
        status: 7,
        told: Told::Offset("refused 20"),
        offsets: CHAIN_FIELDS,
    },
    ShortFile {
        words: "trust public0 chain 1 policy",
        name: "public0",
        status: 3,
        told: Told::Offset("input root at"),
        offsets: PUBLIC,
    },
    ShortFile {
        words: "trust public0 chain 1 policy",
        name: "chain",
        status: 7,
        told: Told::Offset("refused 20"),
        offsets: CHAIN_FIELDS,
    },
    ShortFile {
        words: "trust public0 attached 1 policy",
        name: "attached",
        status: 7,
        told: Told::Offset("refused 20"),
        offsets: STATEMENT,
    },
    ShortFile {
        words: "trust public0 chain 1 policy",
        name: "policy",
        status: 3,
        told: Told::Line("input policy line 1\n"),
        offsets: &[4, 10, 75],
    },
    ShortFile {
        words: "trust public0 chain 1 policy",
        name: "policy",
        status: 3,
        told: Told::Line("input policy line 2\n"),
        offsets: &[146, 148, 152, 157, 159, 165],
    },
    ShortFile {
        words: "trust public0 chain 1 policy",
        name: "policy",
        status: 7,
        told: Told::Line("denied 4 default\n"),
        offsets: &[0, 140],
    },
    ShortFile {
        words: "app coded 2 nothing 10",
        name: "coded",
        status: 3,
        told: Told::Line("input image length\n"),
        offsets: IMAGE,
    },
    ShortFile {
        words: "asm text out",
        name: "text",
        status: 3,
        told: Told::Line("input text line 1\n"),
        offsets: &[6],
    },
    ShortFile {
        words: "asm text out",
        name: "text",
        status: 3,
        told: Told::Line("input text line 2\n"),
        offsets: &[13],
    },
    ShortFile {
        words: "asm text out",
        name: "text",
        status: 3,
        told: Told::Line("input text line 4\n"),
        offsets: &[26],
    },
    ShortFile {
        words: "asm text out",
        name: "text",
        status: 3,
        told: Told::Line("input text line 5\n"),
        offsets: &[32],
    },
    ShortFile {
        words: "disasm assembled out",
        name: "assembled",
        status: 3,
        told: Told::Line("input code at 0\n"),
        offsets: &[1],
    },
    ShortFile {
        words: "disasm assembled out",
        name: "assembled",
        status: 3,
        told: Told::Line("input code at 6\n"),
        offsets: &[7],
    },
    ShortFile {
        words: "disasm assembled out",
        name: "assembled",
        status: 3,
        told: Told::Line("input code at 9\n"),
        offsets: &[10, 11],
    },
    ShortFile {
        words: "showcode assembled",
        name: "assembled",
        status: 3,
        told: Told::Line("input code at 0\n"),
        offsets: &[1],
    },
    ShortFile {
        words: "showcode assembled",
        name: "assembled",
        status: 3,
        told: Told::Line("input code at 6\n"),
        offsets: &[7],
    },
    ShortFile {
        words: "showcode assembled",
        name: "assembled",
        status: 3,
        told: Told::Line("input code at 9\n"),
        offsets: &[10, 11],
    },
];

const DEVICES_END: &[Step] = &[Step::InputsAreShort(DEVICES_ARE_SHORT)];

#[test]
fn files_of_devices_end_early(rt: HostRuntime) -> Result<(), Fail> {
    owned_device_goes_through(
        &rt,
        &[A_NEW_DEVICE, A_WHOLE_LIFE, FILES_ARE_MADE, DEVICES_END],
    )
}

const ORDERS_END: &[Step] = &[Step::InputsAreShort(ORDERS_ARE_SHORT)];

#[test]
fn files_of_orders_end_early(rt: HostRuntime) -> Result<(), Fail> {
    owned_device_goes_through(
        &rt,
        &[A_NEW_DEVICE, A_WHOLE_LIFE, FILES_ARE_MADE, ORDERS_END],
    )
}

const TOOLS_END: &[Step] = &[Step::InputsAreShort(TOOLS_ARE_SHORT)];

#[test]
fn files_of_tools_end_early(rt: HostRuntime) -> Result<(), Fail> {
    owned_device_goes_through(
        &rt,
        &[
            A_NEW_DEVICE,
            A_WHOLE_LIFE,
            FILES_ARE_MADE,
            TOOLS_ARE_MADE,
            TOOLS_END,
        ],
    )
}
