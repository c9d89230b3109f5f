//! The chains of devices: handed out, verified, shortened and changed, attached to and audited, against values of an
//! independent program. The device was made with entries of version 1 or of version 2.

use super::births::{owned, owned_device_goes_through};
use super::{
    A_NEW_DEVICE, A_WHOLE_LIFE, Content, Given, ITS_CHAIN, ITS_LISTING, Part, Step, ends, file_of,
    go_on, go_through, store,
};
use mb_host::MemoryHost;
use mb_model::{FLASH_LENGTH, IMAGE_LENGTH};
use std::alloc::Global;
use std::test::Fail;

/// A statement is attached once, and the chain then ends with the configuration that made it.
const A_STATEMENT_IS_ATTACHED: &[Step] = &[
    Step::Ends("attach chain statement attached", 0, "entries 6\n"),
    Step::HasHash(
        "attached",
        "65ab90c7a82add3c43f2104478bd5ffb768e75fe2e3637428cfee3813e2c7c89",
    ),
    Step::Ends(
        "verify public0 attached 1",
        0,
        "key 1 epoch layer 3 alive\nconfiguration 4\nlayer 1 *\nlayer 2 *\nlayer 3 *\n\
        statement 68656c6c6f\n",
    ),
    Step::Ends("audit image public0 attached 1", 0, "agrees\n"),
    Step::Ends("attach attached statement again", 7, "has statement\n"),
    Step::IsMissing("again"),
];

/// A host shortens and changes a chain.
const A_CHAIN_IS_CHANGED: &[Step] = &[
    Step::Writes(
        "shorter",
        &[
            Part::Text("MBC1\0\u{7}"),
            Part::Slice("chain", 6, 18_002),
            Part::Text("\0"),
        ],
    ),
    Step::Ends(
        "verify public0 shorter 1",
        0,
        "key 1 epoch layer 3 alive\nconfiguration 4\nlayer 1 *\nlayer 2 *\nlayer 3 *\n\
        configuration 5\nlayer 1 *\nlayer 2 *\nlayer 3 *\n",
    ),
    Step::Ends("audit image public0 shorter 1", 0, "agrees\n"),
    Step::Writes(
        "swapped",
        &[
            Part::Slice("chain", 0, 2_528),
            Part::Slice("chain", 5_047, 7_622),
            Part::Slice("chain", 2_528, 5_047),
            Part::Slice("chain", 7_622, 20_650),
        ],
    ),
    Step::Ends("verify public0 swapped 1", 7, "refused 22 1\n"),
    Step::Writes(
        "twice",
        &[
            Part::Text("MBC1\0\u{9}"),
            Part::Slice("chain", 6, 20_649),
            Part::Slice("chain", 6, 2_528),
            Part::Text("\0"),
        ],
    ),
    Step::Ends("verify public0 twice 1", 7, "refused 21 8\n"),
    Step::Writes(
        "late",
        &[
            Part::Slice("chain", 0, 20_649),
            Part::Slice("attached", 15_299, 17_658),
        ],
    ),
    Step::Ends("verify public0 late 1", 7, "refused 26\n"),
    Step::Ends("audit image public0 late 1", 7, "refused 26\n"),
    Step::Writes("cut", &[Part::Without("chain", 1)]),
    Step::Ends("verify public0 cut 1", 7, "refused 20 20649\n"),
    Step::Ends("audit image public0 cut 1", 7, "refused 20 20649\n"),
    Step::Ends("attach cut statement again", 3, "input chain at 20649\n"),
    Step::Writes("longer", &[Part::File("chain"), Part::Text("\0")]),
    Step::Ends("verify public0 longer 1", 7, "refused 20 20650\n"),
    Step::Ends("verify public0 chain 0", 7, "refused 24\n"),
    Step::Ends("verify public0 chain 9", 7, "refused 24\n"),
    Step::Ends("verify public0 chain 4294967295", 7, "refused 24\n"),
    Step::Ends("verify public1 chain 1", 7, "refused 21 0\n"),
    Step::IsMissing("again"),
];

/// Refused commands write nothing, and report the first thing that is wrong.
const INPUTS_ARE_REFUSED: &[Step] = &[
    Step::Ends("verify public0 chain", 2, "words\n"),
    Step::Ends("verify public0 chain 01", 2, "words\n"),
    Step::Ends("verify public0 chain 4294967296", 2, "words\n"),
    Step::Ends("verify public0  1", 2, "words\n"),
    Step::Ends("audit image public0 chain", 2, "words\n"),
    Step::Ends("audit image public0 chain -1", 2, "words\n"),
    Step::Ends("audit image  chain 1", 2, "words\n"),
    Step::Ends("chain image", 2, "words\n"),
    Step::Ends("chain image ", 2, "words\n"),
    Step::Ends("attach chain statement", 2, "words\n"),
    Step::Ends("attach chain statement ", 2, "words\n"),
    Step::Ends("verify chain chain 1", 3, "input root at 0\n"),
    Step::Ends("verify public0 nothing 1", 7, "refused 20 0\n"),
    Step::Ends("verify missing chain 1", 4, "read failed root\n"),
    Step::Ends("verify public0 missing 1", 4, "read failed chain\n"),
    Step::Ends("audit chain public0 chain 1", 3, "input image length\n"),
    Step::Ends("chain chain out", 3, "input image length\n"),
    Step::Ends("attach nothing statement out", 3, "input chain at 0\n"),
    Step::Ends("attach chain nothing out", 3, "input statement line 1\n"),
    Step::Writes("two", &[Part::File("statement"), Part::Text("\n\n")]),
    Step::Ends("attach chain two out", 3, "input statement line 2\n"),
    Step::Ends("attach chain missing out", 4, "read failed statement\n"),
    Step::IsMissing("out"),
];

/// Another device of the same maker also has a key 1, which was born in another configuration.
const ANOTHER_DEVICE: &[Step] = &[
    Step::Writes("noise48", &[Part::Slice("noise", 0, 48)]),
    Step::Ends(
        "factory noise48 maker public1 code other",
        0,
        "serial 07070707070707070707070707070707\n",
    ),
    Step::Writes(
        "script",
        &[
            Part::Text("boot\n"),
            Part::File("order1"),
            Part::File("order2"),
            Part::File("order3"),
            Part::File("order4"),
            Part::File("order7"),
            Part::File("order5"),
            Part::Text("off\n"),
        ],
    ),
    Step::Ends(
        "run other script noise",
        0,
        "booted\ndone 1 2\ndone 2 3\ndone 3 4\ndone 4 5\ndone 5 6\ndone 5 7\noff\n",
    ),
    Step::Ends("chain other others", 0, "entries 7\n"),
    Step::Ends(
        "verify public0 others 1",
        0,
        "key 1 epoch layer 3 alive\nconfiguration 5\nlayer 1 *\nlayer 2 *\nlayer 3 *\n",
    ),
    Step::Ends("audit other public0 others 1", 0, "agrees\n"),
    Step::Ends("audit image public0 others 1", 7, "differs\n"),
    Step::Ends("attach others statement mixed", 0, "entries 5\n"),
    Step::Ends("verify public0 mixed 1", 7, "refused 24\n"),
];

/// A configuration key lists its one configuration alone, and ends with it.
const A_KEY_OF_A_CONFIGURATION: &[Step] = &[
    Step::Ends("sign officer2 draft9 order9", 0, "index 3\n"),
    Step::Ends("sign officer2 draft8 order8", 0, "index 4\n"),
    Step::Writes("image", &[Part::File("keyless")]),
    Step::Serves(
        &[
            Part::Text("boot\n"),
            Part::File("order9"),
            Part::File("order7"),
            Part::Text("off\n"),
        ],
        "noise",
        "booted\ndone 4 6\ndone 5 7\noff\n",
    ),
    Step::Ends("chain image chain", 0, "entries 7\n"),
    Step::Ends(
        "verify public0 chain 1",
        0,
        "key 1 configuration layer 2 alive\nconfiguration 4\nlayer 1 *\n\
        layer 2 68cd35f6dc5234d9a7e9df889d48ec8302912dee6f7c9fe17efeffa7bf970b63 \
        ba7816bf8f01cfea414140de5dae2223b00361a396177a9cb410ff61f20015ad 1 reliable countersigned\n",
    ),
    Step::Serves(
        &[
            Part::Text("boot\n"),
            Part::File("order8"),
            Part::Text("sign 2 1 -\noff\n"),
        ],
        "noise",
        "booted\ndone 6 8\nrefused 6 key\noff\n",
    ),
    Step::Ends("chain image chain", 0, "entries 8\n"),
    Step::Ends(
        "verify public0 chain 1",
        0,
        "key 1 configuration layer 2 ended\nconfiguration 4\nlayer 1 *\nlayer 2 *\n",
    ),
    Step::Ends("audit image public0 chain 1", 0, "agrees\n"),
];

/// The case of a device is opened after an order is committed and before its entry is signed. The device gives no
/// answers any more, whatever the chain is.
const THE_CASE_IS_OPENED: &[Step] = &[
    Step::Ends("chain fresh born", 0, "entries 1\n"),
    Step::Ends("verify public0 born 1", 7, "refused 24\n"),
    Step::Writes("dead", &[Part::File("fresh")]),
    Step::Writes(
        "script",
        &[
            Part::Text("boot\ncut 5 fill 00\n"),
            Part::File("order1"),
            Part::Text("tamper\nboot\nstatus\noff\nstatus\n"),
        ],
    ),
    Step::Ends(
        "run dead script noise",
        0,
        "booted\narmed\nstopped\ntampered\nrefused 3 zeroised\nrefused 3 zeroised\noff\n\
        refused 1 off\n",
    ),
    Step::Ends("chain dead out", 7, "zeroised\n"),
    Step::Ends("audit dead public0 nothing 1", 7, "zeroised\n"),
    Step::Ends("audit dead nothing nothing 1", 3, "input root at 0\n"),
    Step::Ends("audit dead public0 missing 1", 4, "read failed chain\n"),
    Step::IsMissing("out"),
];

/// Offsets in an entry of a chain, and what is refused when the last bit of the byte at one of them is flipped.
struct Turned {
    entry: u32,
    /// At these offsets the form holds, and the entry is no longer what was signed.
    unsigned: &'static [usize],
    /// Pairs of offsets: a flip at the first makes the form fail at the second.
    formless: &'static [(usize, u32)],
}

/// The last byte of each field of each entry, of the index of its signature and of its path, and some trusts.
const TURNED: &[Turned] = &[
    Turned {
        entry: 0,
        unsigned: &[22, 78, 80, 81, 173, 183, 2_527],
        formless: &[(175, 175), (176, 176), (178, 178), (179, 179)],
    },
    Turned {
        entry: 1,
        unsigned: &[
            2_532, 2_536, 2_538, 2_539, 2_540, 2_635, 2_694, 2_702, 5_046,
        ],
        formless: &[
            (2_537, 2_537),
            (2_696, 2_696),
            (2_697, 2_697),
            (2_698, 2_699),
        ],
    },
    Turned {
        entry: 2,
        unsigned: &[
            5_051, 5_055, 5_057, 5_058, 5_059, 5_154, 5_213, 5_272, 5_277, 7_621,
        ],
        formless: &[
            (5_056, 5_056),
            (5_156, 5_156),
            (5_157, 5_157),
            (5_273, 5_274),
        ],
    },
    Turned {
        entry: 3,
        unsigned: &[
            7_626, 7_630, 7_632, 7_633, 7_634, 7_729, 7_824, 7_883, 7_888, 10_232,
        ],
        formless: &[(7_631, 7_631), (7_884, 7_885)],
    },
    Turned {
        entry: 4,
        unsigned: &[
            10_237, 10_241, 10_243, 10_244, 10_245, 10_340, 10_435, 10_530, 10_535, 12_879,
        ],
        formless: &[(10_242, 10_242), (10_531, 10_532)],
    },
    Turned {
        entry: 5,
        unsigned: &[
            12_884, 12_888, 12_892, 12_893, 12_894, 12_950, 12_954, 15_298,
        ],
        formless: &[],
    },
    Turned {
        entry: 6,
        unsigned: &[
            15_303, 15_307, 15_308, 15_310, 15_311, 15_406, 15_501, 15_596, 15_653, 15_657, 18_001,
        ],
        formless: &[(15_309, 15_309), (15_597, 17_946)],
    },
    Turned {
        entry: 7,
        unsigned: &[
            18_006, 18_010, 18_011, 18_012, 18_013, 18_014, 18_109, 18_204, 18_299, 18_304, 20_648,
        ],
        formless: &[(18_300, 18_301)],
    },
];

/// A bit of each field of each entry of the chain is flipped in turn.
fn entries_are_turned(rt: &impl AllocGlobal, host: &mut MemoryHost) -> Result<(), Fail> {
    for turned in TURNED {
        entry_is_turned(rt, host, turned)?;
    }
    Ok(())
}

/// A bit of each field of an entry of the chain is flipped in turn.
fn entry_is_turned(
    rt: &impl AllocGlobal,
    host: &mut MemoryHost,
    turned: &Turned,
) -> Result<(), Fail> {
    for at in turned.unsigned {
        is_refused(rt, host, *at, 21, turned.entry)?;
    }
    has_no_form(rt, host, turned.formless)
}

/// A flip at the first offset of each pair makes the form fail at the second.
fn has_no_form(
    rt: &impl AllocGlobal,
    host: &mut MemoryHost,
    offsets: &[(usize, u32)],
) -> Result<(), Fail> {
    for (at, told) in offsets {
        is_refused(rt, host, *at, 20, *told)?;
    }
    Ok(())
}

/// The chain with the last bit of the byte at this offset flipped is refused with `number` and `told`.
fn is_refused(
    rt: &impl AllocGlobal,
    host: &mut MemoryHost,
    at: usize,
    number: u8,
    told: u32,
) -> Result<(), Fail> {
    turn(rt.alloc(), host, at)?;
    let line = format!(in rt.alloc(); "refused {number} {told}\n")?;
    ends(rt, host, "verify public0 turned 1", 7, &line)
}

/// Writes the chain with the last bit of the byte at this offset flipped.
fn turn(alloc: Global, host: &mut MemoryHost, at: usize) -> Result<(), Fail> {
    let mut bytes = Vec::from_slice(alloc, file_of(host, "chain")?)?;
    let byte = bytes.get_mut(at).ok_or("no such byte")?;
    *byte ^= 1;
    store(host, "turned", &bytes)
}

/// What is done before bits of the chain are flipped.
const BEFORE_TURNING: &[&[Step]] = &[
    A_NEW_DEVICE,
    A_WHOLE_LIFE,
    ITS_CHAIN,
    ITS_LISTING,
    A_STATEMENT_IS_ATTACHED,
    A_CHAIN_IS_CHANGED,
    INPUTS_ARE_REFUSED,
];

/// The record of the flash of a device whose birth has version 1, with its length: the code of layer 1, no other code,
/// and the birth with its signature.
const OLD_RECORD: &str =
    "000009eb0101000000096c61796572206f6e650000000100c10b471ceff881272aa5ed819fd9a0e00000000500000003508e\
    3ea9591a42a7ac26572be34701ad7ccc5eecd66b18d58bbcd5d20d341c905e3841eb7bb25b02750e4fb00b8bc16307000000\
    0005000000032c1e471084d7886d5f0740149d4a4dd663675ac2fc0917d5ccba80ed9aa73ad44c990ee150f972892aeb3c35\
    912a162ef191e625176e7514249870c60bc24622131b04927a418001d1969c9cecd260f10000000100010001010000000000\
    000003ea3471e70b8990ffaac21b76d2c20edcc0f4606d0890b6df5c16277fc3dacb7a92c90c26cc1083961fa32025aa8e68\
    6dc407a6e99e58bff03835bfe4be6bd136c80ad6d646ae1bcd7baa9e75f672c2f29316e35cccb32b9c2b90752b98a4e75b29\
    8cf72e7c53589c0eb6d6734290ede03fda77bec75e89e4bf9234f3a24ee0e9336fb71ce44249357effd1a34e673014ceacf6\
    4c09bd96a4cb27b42dac9f6cc264cf900cae08c8637e2c24bd329385ff14fe7aae30b29f714b6cbfc76a98e5d6af4b158d0b\
    64c193fb1406bb43a3d81aeb27a4358e082772a134be836a10ae4f6dc750151557a13b8d56e19540c7b8b916e3008655c581\
    ca59ec2f6a3e8824622161470b2d9c378665d0f629ee786855c2908f81ed2f6c35f1dcd28967fe66f2d7a503cab98b363d24\
    1a586ac0599649f1767e83b0c752439d11bfc26ff475f86b2c961510f5b20fe2ae01d660f1f6f7e932b8e9c3357076f894ec\
    2321ad1ccd4f88e7ab463b288867d531c13112f2de926229b13c8654551d17d69f9a98defb86071b8b4de73716479cdd24ed\
    a0609ab38d05e910dc2e2c46c63c27eda0550452fc8e9578813aeb23bec5e4a79a4fc60906454cd3c2c1b384448c5400b42b\
    6b12dcf802a1682eb52a265357d5af4cd966915cfc6e393f6a605144f97d42ef0c10f6b36e28beb9543f0bb19eb374a1d72e\
    f1c0624d01842d1e9835561c90792d574cdea0e34a17f7d96da7d9837fe204f619f0f0fe60e473ba801ca58b25e05f954eb5\
    63f9a303f05d1b7168a5b0d5572fefec48daa68bb577d190216c59359b470b38d26bba2ec9da9084889b60fc1184632d5cd8\
    a81e7c96d05f16580822798381a257655dbb917c21904889c71e12e55c701ee9a44f1f7044f54f732a00da1fb88d74c568f6\
    f529133f4bba3a295c6300d43198a4cef75407ea5a29105e510dda693cc35939cc5c5c564a0a67a941dfb470a93c581b04a7\
    dfa897be929634b050a2ded6d2d392ed168514ca820fb93107da347254e89003db04b5a964989ee85f58069ae854bf707964\
    bb780cf3bd23a8627d98c82741b74ea31f5a88f379e83a12df6b601028b8fb15af61a6e9caa1ef4d3d096a3c0338695cff32\
    0a773bc1a1b67eba667e952bcdfbf80361cb9e4204d9849c741da102f0f2d3c56174b34beed6c2115246a4c236954c5e6c2b\
    46f2f16e0928602abf54484ea8f5adb05410f924345662001caaa68c6f7c42494523586c8149179dbddb26f5924ddeea822b\
    8b0c6794e1b329d883ed23f2692052128d88a257f3335b34097fa6a9858b3765a8ad48f8cb1ee98f96f9ea425c9a713e03c9\
    869fa99e636f681eaf0ded0b8552ccca842a046d4a692c6eb86fbd410f52f0de53e004c9e2efef42f415bfe79ababbb88310\
    39508a9438eef5f32ad9611679bedd007fb8650b929e0a773f784dfcd0f8e2d8d562efed94c1ad1052c14e9f86189a7c5096\
    1f7db363b8fa4be94b9a53bd0d628946f2052785506ed8452b67bcb737fbdfa5035bee5159618926339a2575730042ee3b1a\
    b2ffd38614a16b12602807af648a8536d9ef8acbe8a6671843b36ed1580948454eb63974a8d1bb36d59841a7d0a72f47471b\
    4c8507c7d315b40d4ec284c413b7ce127e1123f7266fa70b97c127dbedc58dedff8c52767fd8a315d7dd8875a183f1dcff29\
    60cd3b3329b0734cd252d373d8b79a587bfd56f34ffce99ed0882e6613681fc32887d8d0f0e4c857ad8720f6b9e9117e5bf3\
    5cb6a3f85a5205304352ded648b4910d06ec45cada0283faad1d41bd3814b57915dc729b7f19e01aacd00ff8f5cc57faf769\
    20ca1416a3809918f41afab8f1de96a280ca657ca08f407c342311c005c600981ad7d787578752fa6650d661e7ce5f7b3df0\
    7cda8f014d73e255038b03fd9038f9a8ad1583f425423db403488bbc4d1da2a265ac07852986fb565f43f41ce234fa872501\
    1b837fa225fad144b4e86ab94f46424ae1d4bdf8a3809c198172fd6e3663ffbe00291fafa2e115ea3bb5212e83dc7decc1e3\
    8648575601144f18caacec24eac596484fa437a50d3a6b73282627f1a7ec5271510a62ecc4251a97b3dc41122e098d1a54b0\
    f6878f0764286df87ae0d0dffb0c8a1b87014127f688b78df1c7f28e3274fedde427c82705845e5714b98d3a9fb4dbf64bcb\
    81dc6cea5d59fd052440b76aafad91aa53d0a6b15f9a5dbd1620ac4f250b828705db31c61ed44128d3a4ee91eb11922c3a98\
    e23bf6d147370bbd933161fd9bf11f199036725cb78f48b1da1ca5e8893e1eb16734c1ffdb084fcc6e0ddac3bda43539a720\
    12d7979989834d9dccad77396709708eab136f89993226863d29194aac49e2268f03326fb8b3b1cacedeba00821e9acc89ab\
    64c39166b9923b6fc404f2b80872fa9fe4e1286d7a9414d5bbbb29e1ac13a65ea0a680a7bae7c16209a1253306902506c7ff\
    77e74b2df9dd1afc44b7973438657ea824ff25e5ba12e2741d93d4e4017cbe5c699f83e28b8d2edf846e6d351c35cd9e6ff3\
    6bc25f8dc953131bf64aa76f0d178c3e2b27e9e11b00d2037207d77380a4c0acbbb59e7c3a902499a8c43170d7d8f3ba1fa2\
    b610cf08a4c2eebbd6b5b505eebc156a8e1ec669958a8254ee2bd50eb3db88850fb1472417131ff1c24f4e75d1a1550c798e\
    3c008fc06111d9f493319099e0befddbf851c8b81166087b3a67a25b92a167322a058ef63a5291348ba7fea33669938d0046\
    312c1924726614e05da1c52cbe13faeb7cf008bfbc48b0b86e572b0edf78d2cd5c0b697d33056676de5e3a088856e15a6690\
    321b1cd6bfeee5f6fcc44a67618969c78ffd542d0ac2b73b76c71a5fe3e647bbaeb77041a13c3389ae2457d4560a5b5073a7\
    d7fb9322e8d40842d62b4b2a1f1e9b0eaa1968f0bfd0d722a4ffa8f1383e7ad33dcbd926c9779267e4405f987ed750d6f952\
    a29f2434a82cd6cdad2fdc203a2ba14b2e5403fea286542b24bfc0ec52aa9b2e31b0a0839ff77dc74efe31e2e036814db98c\
    ca868d6c2c42234ed687eef3800b29092946c1f60a989a6bdeecc3b9a600000005e40198664d95e3b1e5a24b28d563957bfa\
    f47b344651e91fbb7cff624fe162530978b2ee30f0719b3edc0e68e69bf1fb6f8bfe9c3f64568c40b3306d41faf411dda570\
    66bb62ef57db7b8517fe361ec2dde8999e8e1f215e6cf93854982abc50a408b2e20ba52817e53c44bc3d951fcdcc85ba4504\
    31e39cc20c1b4e068000ee6b3ffc5e7ee6b955f361d08cb667be0eab3d129dce71b553206966a5dcfe8e23";

/// The root record of the old device with its length.
const OLD_ROOT: &str =
    "00440100c10b471ceff881272aa5ed819fd9a0e0508e3ea9591a42a7ac26572be34701ad271f729e829f128a0ae659f3fccf\
    28888d9a2123be7cc22c3683992563c6e1450000";

/// The image of the old device, of the form before the flash was in segments, byte for byte as `factory` wrote it for
/// this noise while it wrote births of version 1. It is migrated.
const AN_OLD_DEVICE: &[Step] = &[
    Step::Gives(Given {
        name: "image",
        content: Content::Laid(&[
            (OLD_RECORD, FLASH_LENGTH, 0xFF),
            ("a5", FLASH_LENGTH + 4_096, 0),
            (OLD_ROOT, IMAGE_LENGTH, 0),
        ]),
    }),
    Step::HasHash(
        "image",
        "0b1b283088f05b23f17aa98035a889741b96a741f6cac3a3c975972315e08edd",
    ),
    Step::Ends(
        "migrate image image",
        0,
        "migrated 3c73836dc032ad5e30123079a4a62d8b78eefd9d71b9623d5da9c1316e17f589\n",
    ),
];

/// The chain of `A_WHOLE_LIFE` of the old device: a birth of version 1, and changes of version 2.
const AN_OLD_CHAIN: &[Step] = &[Step::HasHash(
    "chain",
    "c0bbbbd027969361b2fdb7586456813b11866e17db7b5e1f93e867a79a8e7db9",
)];

#[test]
fn chains_tell_of_their_device(rt: HostRuntime) -> Result<(), Fail> {
    let mut host = owned(&rt)?;
    go_through(&rt, &mut host, BEFORE_TURNING)?;
    entries_are_turned(&rt, &mut host)?;
    go_on(&rt, &mut host, ANOTHER_DEVICE)
}

// The old device has the image that `factory` wrote for its noise when births had version 1. No image of that time was
// kept, but its hash was, in the example of a device's life, and the bytes here have it. A birth of version 1 stands in
// a migrated image alone, since `factory` wrote version 2 when it first wrote segments.
#[test]
fn an_old_device_lives_on(rt: HostRuntime) -> Result<(), Fail> {
    owned_device_goes_through(
        &rt,
        &[AN_OLD_DEVICE, A_WHOLE_LIFE, AN_OLD_CHAIN, ITS_LISTING],
    )
}

#[test]
fn keys_end_and_devices_die(rt: HostRuntime) -> Result<(), Fail> {
    owned_device_goes_through(&rt, &[A_KEY_OF_A_CONFIGURATION, THE_CASE_IS_OPENED])
}
