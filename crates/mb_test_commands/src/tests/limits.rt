//! What is as long as the rules allow, and one more: a script and the code of an order. Also the longest log of a
//! device, whose last entry is spoilt in each way that a chain can be refused for. The chains are those of an
//! independent program, which also signed what no device signs.

use super::births::new_device_goes_through;
use super::{Content, Given, Part, ShortFile, Step, Told, ends, file_of, host_with};
use mb_host::MemoryHost;
use mb_model::IMAGE_LENGTH;
use std::process::Abort;
use std::test::Fail;

/// A device that is dead, and a script of the most lines, and of one more.
const FILES: &[Given] = &[
    Given {
        name: "image",
        content: Content::Laid(&[("", IMAGE_LENGTH, 0)]),
    },
    Given {
        name: "longest",
        content: Content::Repeats("off\n", 65_536),
    },
    Given {
        name: "longer",
        content: Content::Repeats("off\n", 65_537),
    },
];

/// Layer 2 has its owner and code.
const LAYER_TWO_RUNS: &[Step] = &[
    Step::Writes("image", &[Part::File("fresh")]),
    Step::Serves(
        &[
            Part::Text("boot\n"),
            Part::File("order1"),
            Part::File("order3"),
            Part::Text("off\n"),
        ],
        "noise",
        "booted\ndone 1 2\ndone 2 3\noff\n",
    ),
];

/// A load with the most code is done. With one byte more it is no order, and is not drafted.
const THE_LARGEST_CODE: &[Step] = &[
    Step::Gives(Given {
        name: "digits",
        content: Content::Digits(2 * 32_768),
    }),
    Step::Writes(
        "draft",
        &[
            Part::Text("order load 2\nversion 2\ntrust countersigned\ncode "),
            Part::File("digits"),
            Part::Text("\n"),
        ],
    ),
    Step::Ends("sign officer2 draft largest", 0, "index 0\n"),
    Step::Writes(
        "draft",
        &[
            Part::Text("order load 2\nversion 2\ntrust countersigned\ncode "),
            Part::File("digits"),
            Part::Text("77\n"),
        ],
    ),
    Step::Ends("sign officer2 draft out", 3, "input draft line 4\n"),
    Step::IsMissing("out"),
    Step::Writes(
        "larger",
        &[
            Part::Slice("largest", 0, 24),
            Part::Text("00008001"),
            Part::Slice("largest", 32, 65_568),
            Part::Text("77"),
            Part::Slice("largest", 65_568, 70_271),
        ],
    ),
    Step::Serves(
        &[
            Part::Text("boot\n"),
            Part::File("larger"),
            Part::File("largest"),
            Part::Text("off\n"),
        ],
        "noise",
        "booted\nrefused 10 text\ndone 3 4\noff\n",
    ),
];

/// A device's log has as many entries as a log may have, the last of them a load of layer 1. The key of layer 2 signed
/// a message before it, and another one after it.
const THE_LOG_IS_FULL: &[Step] = &[
    Step::Writes("draft", &[Part::Text("order newkey 2 epoch\n")]),
    Step::Ends("sign officer2 draft key", 0, "index 0\n"),
    Step::Ends("sign officer2 draft8 order8", 0, "index 1\n"),
    Step::Ends("sign officer1 draft6 load", 0, "index 2\n"),
    Step::Ends("countersign officer2 2 load agreed", 0, "index 2\n"),
    Step::Writes(
        "ten",
        &[
            Part::File("order8"),
            Part::File("order8"),
            Part::File("order8"),
            Part::File("order8"),
            Part::File("order8"),
            Part::File("order8"),
            Part::File("order8"),
            Part::File("order8"),
            Part::File("order8"),
            Part::File("order8"),
        ],
    ),
    Step::Writes("image", &[Part::File("fresh")]),
    Step::Serves(
        &[
            Part::Text("boot\n"),
            Part::File("order1"),
            Part::File("order3"),
            Part::File("key"),
            Part::File("ten"),
            Part::File("ten"),
            Part::File("order8"),
            Part::File("order8"),
            Part::File("order8"),
            Part::File("order8"),
            Part::File("order8"),
            Part::File("order8"),
            Part::File("order8"),
            Part::File("agreed"),
            Part::File("ten"),
            Part::File("ten"),
            Part::File("ten"),
            Part::File("ten"),
            Part::File("ten"),
            Part::File("ten"),
            Part::File("ten"),
            Part::File("ten"),
            Part::File("ten"),
            Part::File("order8"),
            Part::File("order8"),
            Part::File("order8"),
            Part::Text("off\n"),
        ],
        "noise",
        "booted\ndone 1 2\ndone 2 3\ndone 2 4\n**",
    ),
    Step::Writes("earlier", &[Part::File("image")]),
    Step::Writes(
        "script",
        &[Part::Text("boot\ngo\nsign 2 1 6561726c79\noff\n")],
    ),
    Step::Ends(
        "run earlier script nothing",
        0,
        "booted\nat 2\nsigned 1 0 0000007b056561726c79*\noff\n",
    ),
    Step::KeepsStatement("early"),
    Step::Serves(
        &[
            Part::Text("boot\n"),
            Part::File("agreed"),
            Part::Text("go\nsign 2 1 6869\noff\n"),
        ],
        "noise",
        "booted\ndone 124 128\nat 2\nsigned 1 0 0000007c026869*\noff\n",
    ),
    Step::KeepsStatement("statement"),
    Step::Ends("chain image chain", 0, "entries 128\n"),
    Step::HasHash(
        "chain",
        "4dcd1c4e9fbf62b98e7b2641eaf854dc4087644c62473b64ab42f88042658eef",
    ),
    Step::Ends(
        "verify public0 chain 1",
        0,
        "key 1 epoch layer 2 alive\nconfiguration 2\n**",
    ),
    Step::Ends("attach chain statement attached", 0, "entries 128\n"),
    Step::Ends(
        "verify public0 attached 1",
        0,
        "key 1 epoch layer 2 alive\nconfiguration 2\n**",
    ),
    Step::Ends("attach chain early before", 0, "entries 127\n"),
];

/// The last entry ends where one of its fields begins, and the statement on it.
const SHORT_ENDS: &[ShortFile] = &[
    ShortFile {
        words: "verify public0 chain 1",
        name: "chain",
        status: 7,
        told: Told::Offset("refused 20"),
        offsets: &[
            324_050, 324_051, 324_055, 324_059, 324_060, 324_061, 324_062, 324_063, 324_064,
            324_065, 324_066, 324_070, 324_074, 324_090, 324_122, 324_154, 324_158, 324_159,
            324_160, 324_161, 324_165, 324_169, 324_185, 324_217, 324_249, 324_253, 324_254,
            324_255, 324_256, 324_257, 324_261, 324_265, 324_281, 324_313, 326_661,
        ],
    },
    ShortFile {
        words: "verify public0 attached 1",
        name: "attached",
        status: 7,
        told: Told::Offset("refused 20"),
        offsets: &[326_661, 326_662, 326_666, 326_667, 326_669],
    },
];

const ITS_END_IS_SHORT: &[Step] = &[Step::InputsAreShort(SHORT_ENDS)];

/// The last entry, its signature, the key that is asked for and the statement are not right.
const ITS_END_IS_WRONG: &[Step] = &[
    Step::Writes(
        "spoilt",
        &[Part::Without("chain", 2), Part::Text("\u{7}\u{0}")],
    ),
    Step::Ends("verify public0 spoilt 1", 7, "refused 21 127\n"),
    Step::Ends("history public0 spoilt", 7, "refused 21 127\n"),
    // the entry before it in its place, which the same key signed
    Step::Writes(
        "spoilt",
        &[
            Part::Slice("chain", 0, 324_050),
            Part::Slice("chain", 321_495, 324_050),
            Part::Text("\u{0}"),
        ],
    ),
    Step::Ends("verify public0 spoilt 1", 7, "refused 22 127\n"),
    Step::Ends("history public0 spoilt", 7, "refused 22 127\n"),
    Step::Ends("verify public0 chain 2", 7, "refused 24\n"),
    // a byte of its message
    Step::Writes(
        "spoilt",
        &[
            Part::Slice("attached", 0, 326_667),
            Part::Text("H"),
            Part::Slice("attached", 326_668, 329_017),
        ],
    ),
    Step::Ends("verify public0 spoilt 1", 7, "refused 25\n"),
    Step::Ends("history public0 spoilt", 7, "refused 25\n"),
    // the statement that was signed before it
    Step::Writes(
        "spoilt",
        &[
            Part::Without("chain", 1),
            Part::Slice("before", 324_050, 326_409),
        ],
    ),
    Step::Ends("verify public0 spoilt 1", 7, "refused 26\n"),
    Step::Ends("history public0 spoilt", 7, "refused 26\n"),
];

/// A new key in the last place, which is left for an entry that names a next device key.
const A_KEY: &str =
    "020000007f0000007b000000050200000000050000000393b65bbc372a21fce53ea4d3a5109762b543e72402084cf50e43cd\
    120f89f8cddc260de3b54c41abb20e792af0f0c5d40000001f000000037c7142ddbec9a911bd04263b598d59baab9797cc9b\
    ebd0f24f438fe1d591b04bc899fb7d426a00aa0cbcd782506d8b81239bb5831218377c3f0895e5a7140a59670230ec61359d\
    f349f44ee1922ef04f8effaaa72c6a37f811d47dcfc4cf32a29cb876b7e8b0495fbfdb2287175b76fb8b5a4fa1d38b32378c\
    0fcac096eb5170377b93fbf23d2be810213b238fa7a6d1483eaa49496fb9249d26e17d9171dee51816515da66d531f448317\
    225ac52f2c234acb214826692d9678e2d32fbc6a50ca84f629895872004dc7bb08c88001cf046e2a600c71bfd0e2538fbb88\
    19e590811dd678c3e1de03c7b86d76bda1bc806ddea60dbc05e8afc068a7413d3602e4659730141a146693243b173166b99f\
    a12ba79e764e3b02a0c8431e0b89c9b5cafd4b8f84cbd38fe1c343f51fac7eceb4338b8f387a68a155555804e64bdaa1fafa\
    f0b884094712e30184bd2fd0342051756d8338f69e98d654e6eebd70e4b75a1edb128ec0740cd5ad7ccac8b124a490bdc1f2\
    c9efb31a9a4b49886c73c6290d88a903ae21e2e170378d70c42bd06b5c122e3d2a91a041902fc72bd6438cb69335a8a98f5d\
    8b00927e4c5b8e99cfb3edda26ef8b6c3d1955ef57e048222040db27101b721c47d76730c7c89d5afb606badc725d3468c7f\
    9aceec4987876956daa96027d498eaa91e156d708e8d924cfeff0452b7c6729110972a87bcd434cbdcdd83a62dbbd04f18fa\
    0dfd47ad39e2a5bcf3b3e52e27337d1c77656a6a9ea5f7bf5a757fcf38bdd3bd8a6a767c358b9a24c56365cae210ac3b9cef\
    7f025ed4160b2ec10dae9e56c0b00b69ddc76bd1217cec9b7c09930ac4506f54e4c2e3a4d398b5aff467e1ea60d51b69ee7a\
    aabe759b1e1009320d1adb901ae6c1e17d38130b12b12ef8b37769904b585101fa764618d941cd450d7575abf761e91b357a\
    4e1ee5e3e6ff262693818976592a1bee4cdab7c6c480ac8194a5ac7b25fe6edc6688b9e5f46ed50ef8b8804519b4d13846ec\
    3b49e7c509e1484bd8b14ccc7f7acfd86b09e05f5b2f487e6bc0c008548c7a11595392f58c394789ea83cb76678764c9953d\
    1db1615bf0c1923201c4bd9b449744377592b9aefcd2a2a85ba3e9048112767488984218e8a2bfa048bd755446f799daa378\
    c9f06f499eb4f50217abacf274f5e10021b47248d98a4559155e037717bfe152a7d196fe831e3c3be5c071f18e161bc238c3\
    0b5c8f3fcd8ffb6221805b8621cb784a07730124219539d0f44278dc46663cb485a2ebb1e36fa24e1d40e2efd5725570c75e\
    e9a2225888e9a9c83c76fc47dd31469282a8296d726d051384f234bd4c6b0a305f8011b643e4c4e0ef04349693b07f5cc2fc\
    d3c97ca6050a121c5c5ba13fc6716ec6f23c81ef46f6700930614d9bfbf07d234a4302d200ef03d082bf13f1bab8ede4a3e1\
    4b21c1479fc87a304e8f84e242208f7275f9692eebf9ca6010ef4e02a593695c28dc3c6b8c22c25f8119cdca07cd1f4e28df\
    320c757506069928688e0f2ecff1f499688fd524a77d028d76690c755cd9dc837e9525807eabcbe0358bcac04b494392b5c2\
    0efc13a730a22ae0748307947b5275ef3f29de1518dcdcae6df29d6e1520a7bf0d841df394f18de6293912a2f1720c3a80df\
    c2fe4394f041ff0dd4711fe45ac1871b21735d14b026a8958aa35ca777fad8df1f0a785951a8fc2dcfdcf97f8c127618c091\
    16dd4bcb0500b7360df1dde66df0468c347c92489aa42b2fe852bca2e613cba9ebca1a279afad0663659b5a2721a3235a78c\
    848ab5d70c2586c9915b74dee28d057c8717cf28e3bd43f9692bf703577e42c91aa1fea84fa617aebc87cbd9baf4bd5280dc\
    f7c1511aa03244eeed33b65f3b30a07082d77a28afd463f03eeb0ab5560f26a67587e0e0c1198f3ba422f938e868226dedf2\
    1d493acd8a69112d73b2624d46caf34f57f73a0664be535f1bc02a7ffeeb47adb7aa1b1c8ffab07ae13b1ebb806408f4b8e5\
    368cd3573c82c0f79c34a80b8c2debb9a1331ed5395768c916d645dbe9ecd9e41afa9feaec968f537449978b95fea26edb6c\
    4203d78d9a9cc79f4665787bffe6c79dd820501218a9faa62c99e9ad4afe26a28a514f1d9359b74560fd4805051cd8cc9e0e\
    314d0cda6d83ae0e6d687b076b9fd2d5d6b938d6f366ddd1225bd3f945776e77eb268a58aab68bc26e45b14bf8275930bebc\
    e3eb337204706ea32bb28514dd093ff211a67677cbe01502949c34abc6e666641d27a5423647e570fd11e6ec7a0f45dac61c\
    fac8727d3babe4bf0c8bd2c209e721d313515391e7d7f809512140b4d9edcf1a89548ab2010cc9548337c8aa2619b1e31b52\
    b16298330185210b3f26cdbf921762cc1ae9224b24f3c52a9b4f8ab371949eb7768bafb0f9fdf64ee07ddd916576338ddf04\
    ace9a0c353bb9555db7805deab156cac113146da0d4e4658d9cf6a6f70994749267706d4bbc007effa4cd6e632619a98a158\
    17943d1724984ab5e42f9366ad83a6ca49aaa8b019c73c9210b76684ce17030572d14de0b17aea6f8782a88d67681addee7d\
    4492983c5cd607639dce1f52ad653034e70f690bd0131c2a26b5fb94599ef45c40f3e0738e01c724f0a9d029143e8fe1f802\
    56e4f86bc6087b42691e493f74020a2e20ad5b5bb07961b953503017ad2086668bc4f6cf479e801a0b1fa20d7645d610c959\
    c704c204bdffa17afd73fedb730fc4af9cb2d87486e3873145d497a3bcc49e928a1f8e070307a296fc366a28e10b3b674ad8\
    f376f40463920a4c9e54f0e7eeb5479088a7eeee171468ebac40c15787b795cf9928b0c1cb81a1bc0a677daef555ad565574\
    395005bc9fd596fc71fb1216c0b2b9ab944b4a0af05504e0ec3bf707eea7e11101fa7b2c2c72394af10400f43efcb792d8c9\
    112aae49aa6aeeddb73a53dd0d411b77d6e6d8039ff8a53f840894fb0d23b2ae77e16eb431eb7cf97ba970d237e87d7abb86\
    ce6fd5b44f72784819e0c5c2f74fc15d24f59d1b397d817973b8f80969b01d9f578d288663b3bb5a66638af4dad6109dc47b\
    f86bcbbaa900000005beebd288a3c137e005d70dbf440042eb0578d4350ef2f354f6d3752dcf4b82b363e600e55673766bdf\
    c60e6b1e77d8a9364e67684526d45160b49556ef3f6519bad9bc730a13f90002b165f727b5516fb21f4facbf7fe8723fcff5\
    9cda934020e11b177111488eecb63d00d1b5838fe3fcb2e0375a8b9a5f9fd2744ce9a0471140599e65aaea6be4fcb62e50c2\
    e904cf6cb186215f5e397cf93a413f66e8fa1c";

/// A load of layer 1 in the last place, to which layer 2 does not agree, so that its keys end.
const AN_END: &str =
    "110000007f0000007c0301000007000000000005000000032c1e471084d7886d5f0740149d4a4dd663675ac2fc0917d5ccba\
    80ed9aa73ad44c990ee150f972892aeb3c35912a162e7692c3ad3540bb803c020b3aee66cd8887123234ea0c6e7143c0add7\
    3ff431ed000000030302020000000500000003456f47e33661bea750d0d7834df1866ee01637b5c1d8b439b648b48180b105\
    614fe7f19f31e54ccdcdab1be127d73256ba7816bf8f01cfea414140de5dae2223b00361a396177a9cb410ff61f20015ad00\
    00000200010101000000050000000393b65bbc372a21fce53ea4d3a5109762b543e72402084cf50e43cd120f89f8cddc260d\
    e3b54c41abb20e792af0f0c5d40000001f000000037c7142ddbec9a911bd04263b598d59baab9797cc9bebd0f24f438fe1d5\
    91b04b59ca4e0cfd62cc433d5d84f699430ad1eb7abe3eb9218119f65034a3999fe1b7670230ec61359df349f44ee1922ef0\
    4f8effaaa72c6a37f811d47dcfc4cf32a2aeab943a78f432725250b58f4cdc52ef237cc396a386f0d9c1c8c5a52ec38e13bf\
    b08cc86355862579e6dc3e3d199dafe1db3c08e4e056ca96c31c6bd9a0c1767c2498c4db7246b31d5b8686efe5bc62b42bf7\
    8576304f93aac820054926891f14b4a6250e21d8b96d2e5be8275ddd60d4aa2ffc94f45f1f01adc5c64bdba1125d5627c82f\
    490fac1ad5ab4cc1262fb9d018752772b325ccb535a44bad24f2f4fed496a0c4d861215744db3cb00f7baf6ed97ec34fcd11\
    875cf01b531655dd62e2a24fa51dfa5b87988d8568fa113567f28e90574f2233eb2884ca05f0793a99bacfd4c3de7ba35a3f\
    69a28257e60370181613d3d916e89d0bc38db449a9591814e45a23e2a36517d2a5ce69f286038bafa14b08ca669250b24d51\
    5e316f7e1b5d1282f8181127d10cff35938099366a371f7263b0c08dd8df862bb90435b07261507b5bc955b8a502d5ca6895\
    a183eef8966dbbb68710bae647e92c8adae73cc8707434c8d2c77a9c12b5e15ce3447fe2c561132bee7472626a04b53af8dd\
    ed4803f9520c43238fb6148ea6cc1867d61cf873ca40911243cbc18931637019fbe5259dd9526bf7a213807b34f606e3b778\
    11621e46b05e1aee2c8c672fd46f9513ed0a8231fea4f5eb7921b604c9ae7dd2fbd7f5332e3325e967085f515c09892c4901\
    735a3ea78d09310c6c4f6d4e8894678aae7911a6667d6d8b7c32402f436f56b7cf2b7dfc844e8cae0d588cb4ad45f681958b\
    161413d194d0a9fcbc61f1cf30c913338e6d0f1abf33ab85bc8454696d9c290ca1427fbc7a617e636530812cc8339bcdc5d7\
    fad9ecc348a7ec701c8b53a9870304909a00ac6178abb58b274e71c6e9401b023ed909723a264243f5abeaa19be104db503f\
    b991a42abcab18d67e9da1dde113180f57cbada2a64b5db458d75f8cc48bddc36ae7a9708cb497bdd417e10499f0b07246ba\
    825b8cd4138ec1ce864d2bcc34946575dcea6329ca3aeb4961d093ae1b34ecfabc1f35d1d7461d8ab1cd3c59b636773b68bd\
    249ad3c603459a8b520a72e2aa1620c1d05bbd63bb26e60005fba5e5838b64b80c6ca26f428309a0b43463281f74786f8c40\
    e8ad415db92ce568e019025db34d5d4c08e1cd11b9e43a72fce15d48548188df86833089e9374d92b97485dbb12b53a38721\
    513cbd5e27fa44a61a926f95743cda85e318e71c7af2145bd77db44787aa817b739c3080e7d46fde7301b1a928b8c8e9ecfe\
    f01d5f338180c40f8ce1df23f166e8c300d0142666f79e7ef179be8abfb8e20d068144caf909c3f39095e4c025588b52da61\
    25c79661c1a18d4a79721351f4f97f42bc8e8b36841fe6e2d5639c62af429a291f7ddd030ffd0a582a5683689e8ff6375385\
    b2959380c45564cb09c24f1a2041b8a23b4adc9374dacffc91b10dce62a21415199928cd0141bb987ea6796cca8bfaa154b5\
    9956c9fd4ada9fe6589d37fb9483825833ef7125e3bd95bf0d841df394f18de6293912a2f1720c3a80dfc2fe4394f041ff0d\
    d4711fe45a077955c63992deb88895897b6b593f3f3e9a56c7c1c5d8f3941f6b3f751b660f80d4ea750b1b48aa91aed897de\
    280cce1420af03b69b9422d50447f2b1db220df24fc84d1e79d0189866785b7c98e8ab8341e12071459e927dbbf8ef3dd16b\
    b5308622e143bcc7d4588cb88cc762364ef418576a01a51d27a39494b97b2c961841eb11627d6859c52dc9c22ed1170d7fc2\
    61bad183841b2a2b672438520c824bf7a3dcf7c75a72005bbae97fd98e80f0b5958c1bd0659ce30b230797c863577a69112d\
    73b2624d46caf34f57f73a0664be535f1bc02a7ffeeb47adb7aa1b1c8f2e7049d02c4f7f02de557ab82254660aa1fcde3720\
    8fa984f2b07ca117935533e3e89827fcb5f8d8fda7f3f0d9a7f74fa0faa9bd5cd723e3cc8a979416f736292f07420e616866\
    b6c29379b0e37209596bd45e4b51df732f8662fd02110d2329b1777899fefb4327f41ece0344d5701ab9dced03a02e100349\
    15d6aa30447f4760a2cfb1da00d82d812f8f9655bb36247c707ca09d9e8973f4836a046514c83dd3df88bd7309d6cc017c14\
    2e8a3d1194a4f147bde6ec69ea34f4ef263b2b133a87165c2b7c46c07e888af39a254e84e68b32540342296e15c9a7ed856a\
    6b9639e2584bb0fd2c58f04e52638ae4de65457b4a467152cfecb674143fef3613c91783eaba09352e64ca5a5dd38a6edb8b\
    4f88c0f5471e070cab2c63547a73e2ec1b5af62d1ca59b690984c5525a0a01d8823142a31e3d7b485790354303976f8c533c\
    41cc69e2731a54a6744db96adcb850af49ecbe96a31d4f5812e3255ad35c9cbe323aa69c3d43b2982becd2d2894efc34d615\
    8fd75b78e84662933d77263025b779f77a77946374d889224d54a74f55297db0b969a89858a5c53c150becf8111c23d518a4\
    3d85d6671e76c5e5f983d594e6a1c4e5d8b3a38c0c1340ba6c6c6cb3d4bac38066a5bd834e1e92b74979d5e48b90e8cf9eab\
    82fe6cf6a34cbd58cf1824bc2bd21671d0ccdecc106a095d44ba4dc8525aeb7362867b1771b07f04447298772fdb4181ec56\
    9aafca9f35a5f5b237a6f8e70d807cc03ad363c5b406abc6077c27b88325e5fed243687bc3d5102cc2adefe2c38f55febb44\
    8d337576c4b5479088a7eeee171468ebac40c15787b795cf9928b0c1cb81a1bc0a677daef51eb9d59088013777c071ee7803\
    e57aa924edde726f7798c85c70b6ae643595816d430e798925e60a91ea27a18a6cd98b83190e6ad4d23e6c2091a5359a4e0e\
    813a53dd0d411b77d6e6d8039ff8a53f840894fb0d23b2ae77e16eb431eb7cf97b54dfb5eed8d74201cbabe10dc850d8d55f\
    6ed05079b29d03e4112d153d01e040b9737dc588c49f5e33a8fdc82c32d37f7f1f032a5c46abf7431b0654bc87f83b000000\
    05beebd288a3c137e005d70dbf440042eb0578d4350ef2f354f6d3752dcf4b82b363e600e55673766bdfc60e6b1e77d8a936\
    4e67684526d45160b49556ef3f6519bad9bc730a13f90002b165f727b5516fb21f4facbf7fe8723fcff59cda934020e11b17\
    7111488eecb63d00d1b5838fe3fcb2e0375a8b9a5f9fd2744ce9a0471140599e65aaea6be4fcb62e50c2e904cf6cb186215f\
    5e397cf93a413f66e8fa1c";

/// A statement by the key that ended with the load of `AN_END`, which names that load's number.
const A_LATE_STATEMENT: &str =
    "0000007c0268690000000500000003d5034fcc63346658b7922a3fa2fe73384c3c25e9a0a5b914e7a67983727e7a6d6b13fa\
    a8ad04db6b882258c2fa2716ca529c5ea1d229084a6ff1fcd8b931323a955f39829585399085f0938feef6d2997be642916b\
    c21c6715dbe5cc6f489e45e3f89572cd485894796821a18f7cfecc84c0e4235c2ac0e96493143fc0902842e8069a861d9f58\
    550f5a65f337fd928228bb65d5723b4681158e4fe14c35fbaf807f21c843b9e704dbc500ec00c36da403b1c93dc1f981e132\
    f0f0dfa4e6bf75656d4539bf7d072ae5b72abc07d921f177385b08ec7639b0059a5f56d2782716bef9f46843ac2785787042\
    e776f7130b244665575eb478fabd7f2e27b6d963dd815305f9ad968c69fecb6e528ea1bdd8ab1b21e64af948314178d45bad\
    b247ea94d664966d67e4fca10553912767b7c3198b17da926584be738985c274bc17be3ebf29782a80a19025a489925392a3\
    3f28fdc62e94aaba8777ddf1f507dd0ee76a54a4fa8e8f453cd45ff2ef4897af5225437ca9256dfb6f8969353ef7abd85e40\
    ff26144b9d7f6aff6aa0d9389472251f3f99d8df34acc59b7828d058b0caf05a69cc43f7177b369ed500c17de7331e164440\
    d94d0bbc934ac8a8e24b5fd3379fed0eb5376e20c0a7400d5df2b478c088ee5da707a84d89ab4bf32c8dbd390c2bd1c70963\
    d821702a7a9fc62a0f63c3fc97796573beca299be347ea55b573bb0d253e28ba28fc05d4c6d078ce6aca8ab424aa3a671d2d\
    665f11534aba56079be377728608b8edc6b29e0ae0de49edf2e225cae203eeaac5de0ea68ffa7d3a1cc9160bb9e8b9415a2e\
    f604d230f9cbe8864037c843ab32befa431daadc0a45953744e5e62ef389325ddecbb4e23f906cadcc4e833d3d7a4d797734\
    7fe575b66463c4c56127fec8cd64f9249bafcda368b9a3b700c692c25759fa303c4cda23f42d3c483ad4276e2d5b10e3f3dc\
    824ac60852f007509463c226bc49020b6e7a780f784deeb399bdb98781dfcebb6bc2e88e427dff41a959c7c4994b94880d33\
    729227e46032b1faabb7fa2a5b1a1e4378c3a7de0cec3c4886113340713da67be25260deeffb280e68e072354171bd2dd38b\
    c4b6a3394c015293efd180e964ff580cfac110324b18d2e4ed3a7854a7b3236c7aa4f6b316c6fd06d431150a46d2d4cd0a1a\
    1f694f2d40eefe802f5fed519b6b5ea92f9b299bb48c7f3f95522fd560d489871bf53debb0854b28c145b68abcb96d6dcab1\
    7f6cf1d15de98ff4d8fc54b2eeb3e14fc74d7e7d786ce7d59c6014e551dcef62fa7088ac1845c58fda1dfdf231b53c7fd93b\
    074a9e1b15c9323de278331c727190c81f839e119623e0e570f916fbdb6fbf269ac00931b18e486ce853021d18412e07af51\
    75d424de2f7feca8f6b3e3e0d52506a7ccab1e3bba2c694c2024ba39873a1866b43cd207ca5eb8a9cf5b21d0febbfff1af15\
    d672ecf49a10f639cd95453205d1e2281d3b5c38d67544ddb8dc67dbf9939024cb825c83fea01dd4909a1d2485f264513ef8\
    a1c2fa5e86ad65c4fb3fac5267790163e45bf7b5613a31d6f8dd597d0987e7c1db1af46fd4da9b79ef20fd11aa85a6477f93\
    2148cddffe88ffe38d446c4391085430d258dd63477a98070962c57146338b2433fbcaa5871cb3d27d13d15717ab1106d2db\
    706181da75f0d09e32213631191c6b9a9e86e078fe81ec1a000731c8739a8efa466a25eaac71ce6b66ef99c5677c0ea7cc73\
    83d52eed9e41b2ac39ab5bca99b5a470643c4a196f30557b52966207ae9d8070d774f3c657751e2f7eeda31e67e79ef96c48\
    fa73978398188851f81849f0fa7fa8e2a812cc8594d555f2a1bd200b6b7ec428a6b13cc3c4dd16de8bd4f946926d7ce17884\
    e84e109ec5de6a3ac371534bc65e2c52e10af161cdc3a9ff7ae82d545edabed5c2800a2e633f38dce68486723d94dc48ace5\
    92e9e5788aa47799030ef473fa2811fc5f64f281e692b584d3b625b9f13f5dd3d1d686eaccd118a108efacd58abe60f2cf3c\
    e1a0a61778589731f1043f654adbb189a18bd1c728e9c3f235f815672ffb3cc71d28bbe98e9e4b766a33936a9b6473250324\
    150f4b9fc26066c8466d9606d15d93657778f7e4bce8b7b9b4a97f211b3282e9033029ca97c7b1c380abfec35d6d9ac88e94\
    2eeec5ee87d0095e1fe5297a2413327780ba8de14240b9b8130ea7518edb9bfcc836ec04701b3159ec2d5b6c661b5b8adc90\
    57edb8acfe7bb4db0c3fc3f7de179bfd5cd8338fd62012d383bc42d4a01c6110d7ad481ce2be6d655f3123aef8d5cdb346d0\
    176c42c9c7c1a712965bdeed09c083e57b2ce28c8584a5564b222f3e8bcee45947ec9e9cf2425e54205b5eee75e75e928739\
    9f28eaee32514befe2a09d14dddb966b761975fda4a98140fecdcd1762511dd91a5431650ab79398df3fef37ed06626ad4b7\
    35f351faee7228a3bf334b8ef0be04e5ad09788cefcff981923c78a33ca54f52d61ee207a2dcdfcbe2a87130bcb3fac47765\
    a80e13cbcbd291226b697b7509216e0360837675bf6f16f203180ef291ad10eb82955eb7973af264d991b50ad3b06a408239\
    40341f71041088acafc8e123e55f281ee1e66b8da03a9f603b246736c01bbf1ec7c24bee47d26205aec29913217171cba9da\
    26def4bc45a45af1268f446b81d1b82dc6389dd37b72eed9f4011021fa4c2f86cff50e1f11152704e6a6bdaca721d9811597\
    e16642b3b31b0289a8e2051eb225bb0d3ff8db1c6d6d0f2f983299ec0f8157e65b42462bd724357d8418c3fbaab7bd747e3e\
    eabad335898d3150e429337c9a871ba5d18c6ef17732840d9def1703d160b6a3d6ae240f91a856f5b7c00606889a9740ba63\
    e88e81b17924193e09e93e51ad34e0b9892d91f51bdb880bfcf77dbe26954850dbf9b1fad6dac3d45361997a41feedf65eb9\
    495b687755cda1b18dffe4e205df985cf2f288facad0c6a5e2a351aa07b045085acc4c8c06269972992848c213baca40d028\
    678a3bd546e6f77feb5aa31ec9c901ef0c85b0f80648cdd2cf7832b2ed859ab0e161b879cb1ccfe472000000055a8c49a000\
    a1f6aafd55f59d542d83e90de15c15eb408a0a63a2f06e7540fe48b50c58940b3be9325de7946884aa198793bee7017849e0\
    5c82e0cb2c19bf7adc466a8dfe9bafb67e883c5ac353f3cdadf4278f3a912cacc2094d6631f2221f0b4e7b89cebb337c92e6\
    0b467f0291097fc0c16e997606d31bd1adc30c2b9fcfa64c79d8d5e1f9661293b6b390d610a10568f81f261816de6413cc4e\
    88e64a0261";

/// In the place of the last entry stands one that the device's key signed and the device did not.
const ITS_END_IS_FORGED: &[Step] = &[
    Step::Gives(Given {
        name: "forged",
        content: Content::Hex(A_KEY),
    }),
    Step::Writes(
        "spoilt",
        &[
            Part::Slice("chain", 0, 324_050),
            Part::File("forged"),
            Part::Text("\u{0}"),
        ],
    ),
    Step::Ends("verify public0 spoilt 1", 7, "refused 23 127\n"),
    Step::Ends("history public0 spoilt", 7, "refused 23 127\n"),
    Step::Gives(Given {
        name: "forged",
        content: Content::Hex(AN_END),
    }),
    Step::Gives(Given {
        name: "late",
        content: Content::Hex(A_LATE_STATEMENT),
    }),
    Step::Writes(
        "spoilt",
        &[
            Part::Slice("chain", 0, 324_050),
            Part::File("forged"),
            Part::Text("\u{1}"),
            Part::File("late"),
        ],
    ),
    Step::Ends("verify public0 spoilt 1", 7, "refused 27\n"),
    Step::Ends("history public0 spoilt", 7, "refused 27\n"),
];

/// A script of the most lines is served, and each line is its own reply. With one line more it is refused.
fn long_scripts(rt: &(impl Abort + AllocGlobal), host: &mut MemoryHost) -> Result<(), Fail> {
    ends(
        rt,
        host,
        "run image longer longer",
        3,
        "input script line 65537\n",
    )?;
    let seen = host.printed().len();
    ends(rt, host, "run image longest longest", 0, "**")?;
    let printed = host.printed().get(seen..).unwrap_or_default();
    assert!(rt; printed == file_of(host, "longest")?);
    Ok(())
}

#[test]
fn the_longest_script_is_served(rt: HostRuntime) -> Result<(), Fail> {
    let mut host = host_with(rt.alloc(), FILES, &[])?;
    long_scripts(&rt, &mut host)
}

#[test]
fn the_largest_code_is_loaded(rt: HostRuntime) -> Result<(), Fail> {
    new_device_goes_through(&rt, &[LAYER_TWO_RUNS, THE_LARGEST_CODE])
}

#[test]
fn the_last_entry_is_judged(rt: HostRuntime) -> Result<(), Fail> {
    new_device_goes_through(
        &rt,
        &[
            THE_LOG_IS_FULL,
            ITS_END_IS_SHORT,
            ITS_END_IS_WRONG,
            ITS_END_IS_FORGED,
        ],
    )
}
