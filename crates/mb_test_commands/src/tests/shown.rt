//! The commands that show orders and keys, and `cosign`: each line of each kind of order, who signed it, and what differs
//! from a draft. The lines and hashes are those of another program.

use super::{Content, Given, Play, Step, perform};
use std::test::Fail;

/// The lines of the public keys of the first two noises.
const ONE: &str = "owner 4f6e9ff38c1bc427d7e117d76edf284a97cc41938a0dc9375856a06c06f87f9b\n";

const TWO: &str = "owner 58ef7fca03598093aff0337e08eb4607108c6aa66c14b7565cabf1199a9584e5\n";

/// An order of each kind, with signatures that are none; the noise of keys, drafts, and keys that have signed.
const FILES: &[Given] = &[
    Given {
        name: "establish",
        content: Content::Text(
            "command 1103020301111111111111111111111111111111111111111111111111111111111111111104032222\
            222222222222222222222222222222222222222222222222222222222222000000090000000133333333333333\
            333333333333333333444444444444444444444444444444444444444444444444444444444444444400010000\
            00\n",
        ),
    },
    Given {
        name: "surrender",
        content: Content::Text("command 02020102000000070001ab00\n"),
    },
    Given {
        name: "load",
        content: Content::Text(
            "command 03010201000102030405060708090a0b0c0d0e0f02000000050000000202000000000003abcdef0202\
            000003000401020304\n",
        ),
    },
    Given {
        name: "own",
        content: Content::Text(
            "command 030300000001020100000003616263000a0000000000000000000000\n",
        ),
    },
    Given {
        name: "emergency",
        content: Content::Text(
            "command 14020102ffffffffffffffff02000000000200ff0000010300020506\n",
        ),
    },
    Given {
        name: "epoch",
        content: Content::Text("command 05020000000000\n"),
    },
    Given {
        name: "configuration",
        content: Content::Text("command 05030001000000\n"),
    },
    Given {
        name: "eight",
        content: Content::Text(
            "command 0203080200000000020000000102000000020200000003020000000402000000050200000006020000\
            0007000000\n",
        ),
    },
    Given {
        name: "twice",
        content: Content::Text(
            "command 02020102000000070001ab00\n\
            \n",
        ),
    },
    Given {
        name: "noise",
        content: Content::Hex("000102030405060708090a0b0c0d0e0f101112131415161718191a1b1c1d1e1f"),
    },
    Given {
        name: "noise2",
        content: Content::Hex("0102030405060708090a0b0c0d0e0f101112131415161718191a1b1c1d1e1f20"),
    },
    Given {
        name: "noise3",
        content: Content::Hex("02030405060708090a0b0c0d0e0f101112131415161718191a1b1c1d1e1f2021"),
    },
    Given {
        name: "draft",
        content: Content::Text(
            "order load 1\n\
            target length 5\n\
            version 2\n\
            trust countersigned\n\
            code 616263\n",
        ),
    },
    Given {
        name: "target",
        content: Content::Text(
            "order load 1\n\
            target length 6\n\
            version 2\n\
            trust countersigned\n\
            code 616263\n",
        ),
    },
    Given {
        name: "trust",
        content: Content::Text(
            "order load 1\n\
            target length 5\n\
            version 2\n\
            trust countersigned always\n\
            code 616263\n",
        ),
    },
    Given {
        name: "byte",
        content: Content::Text(
            "order load 1\n\
            target length 5\n\
            version 2\n\
            trust countersigned\n\
            code 616262\n",
        ),
    },
    Given {
        name: "version",
        content: Content::Text(
            "order load 1\n\
            target length 5\n\
            version 3\n\
            trust countersigned\n\
            code 616263\n",
        ),
    },
    Given {
        name: "layer",
        content: Content::Text(
            "order load 2\n\
            target length 5\n\
            version 2\n\
            trust countersigned\n\
            code 616263\n",
        ),
    },
    Given {
        name: "more",
        content: Content::Text(
            "order load 1\n\
            target length 5\n\
            target length 5\n\
            version 2\n\
            trust countersigned\n\
            code 616263\n",
        ),
    },
    Given {
        name: "kind",
        content: Content::Text(
            "order emergency 2\n\
            target length 5\n\
            version 2\n\
            trust countersigned\n\
            code 616263\n",
        ),
    },
    Given {
        name: "again",
        content: Content::Text(
            "order load 1\n\
            target length 5\n\
            version 2\n\
            trust countersigned countersigned\n\
            code 616263\n",
        ),
    },
    Given {
        name: "spent",
        content: Content::Hex(
            "4d424b31694fe06163fe29b42b183e4e7e7a218e0b8456b9f8065e1834608d6afcff6f322043496ffbaca002a9559c9943030d2f00000020",
        ),
    },
    Given {
        name: "used",
        content: Content::Hex(
            "4d424b31f5d541e6c1f5736fac8d67703916a7e4b7b94ea512bd312bfcd9eedbebef91090a23420ddbc50323fc7193e510217f8c0000001f",
        ),
    },
    Given {
        name: "maker",
        content: Content::Hex(
            "4d424b3201136b8c60f7349e4e452847a2b564f20a1e0642410e09d0ba9ae7a13915d483190000000000000020",
        ),
    },
    Given {
        name: "high",
        content: Content::Hex(
            "4d424b3208136b8c60f7349e4e452847a2b564f20a1e0642410e09d0ba9ae7a13915d483190000000000000001",
        ),
    },
    Given {
        name: "long",
        content: Content::Hex(
            "4d424b31f5d541e6c1f5736fac8d67703916a7e4b7b94ea512bd312bfcd9eedbebef91090a23420ddbc50323fc7193e510217f8c0000001f00",
        ),
    },
];

/// Each line of each kind of order is shown, and nothing is written.
const ORDERS_ARE_SHOWN: &[Play] = &[
    Play {
        failing: &[],
        steps: &[
            Step::Ends(
                "showorder establish",
                0,
                "order establish 3\n\
                target owner 1 1111111111111111111111111111111111111111111111111111111111111111\n\
                target code 3 2222222222222222222222222222222222222222222222222222222222222222\n\
                owner ce4b54e8057626fb2dc3bbf61f561fa465957dbc0e1bd11e3f73dcd2aaa84696\n\
                trust always never\n\
                body 453f3b2228d1d17c8ab0b6bcf65a4cbc7741671006eb571b0e395e2d98be041e\n\
                signature 0\n",
            ),
            Step::Ends(
                "showorder surrender",
                0,
                "order surrender 2\n\
                target length 7\n\
                body 38e45bad4c0a5e2a6b9c2d66065d44bd66c20d0f3dd55a75ebff18cf194477ee\n\
                signature 1\n",
            ),
            Step::Ends(
                "showorder load",
                0,
                "order load 1\n\
                target serial 000102030405060708090a0b0c0d0e0f\n\
                target length 5\n\
                version 2\n\
                trust countersigned\n\
                code e3b0c44298fc1c149afbf4c8996fb92427ae41e4649b934ca495991b7852b855 0\n\
                body 9750b79af73adaee19a2277c912a03033d0f068124d0e2c8f1c8863b098d31e8\n\
                signature 3\n\
                countersignature 2 0\n\
                countersignature 3 4\n",
            ),
            Step::Ends(
                "showorder own",
                0,
                "order load 3\n\
                version 258\n\
                trust never\n\
                code ba7816bf8f01cfea414140de5dae2223b00361a396177a9cb410ff61f20015ad 3\n\
                body 8bb6c6feb5203e4cabccb40c007f2666dbb6354efedea46fcc149d12617de64d\n\
                signature 10\n",
            ),
        ],
    },
    Play {
        failing: &[],
        steps: &[
            Step::Ends(
                "showorder emergency",
                0,
                "order emergency 2\n\
                target length 4294967295\n\
                version 4294967295\n\
                trust countersigned always\n\
                code 06eb7d6a69ee19e5fbdf749018d3d2abfa04bcbd1365db312eb86dc7169389b8 2\n\
                body 96a7d4620b3c674e6aca0eb1d7a641d7e3913ec8894caa06d9303eb7bf0edf4b\n\
                signature 0\n\
                countersignature 3 2\n",
            ),
            Step::Ends(
                "showorder epoch",
                0,
                "order newkey 2 epoch\n\
                body eb1fcb07517e5ebaf096ce3b4a290e44d97c23671be7b498ac66fa0b173e92db\n\
                signature 0\n",
            ),
            Step::Ends(
                "showorder configuration",
                0,
                "order newkey 3 configuration\n\
                body 0694e2d1feaf4d93ae6480d721b8778b7143ea71a72de68f600f48c72619353b\n\
                signature 0\n",
            ),
            Step::Ends(
                "showorder eight",
                0,
                "order surrender 3\n\
                target length 0\n\
                target length 1\n\
                target length 2\n\
                target length 3\n\
                target length 4\n\
                target length 5\n\
                target length 6\n\
                target length 7\n\
                body 7030ab64e11afd2ba8530773f76e21e70abd5407d8c562c24cfba01fddf24393\n\
                signature 0\n",
            ),
            Step::WasCalled(4, 0, 4),
        ],
    },
    Play {
        failing: &[],
        steps: &[
            Step::Ends("showorder twice", 3, "input order line 2\n"),
            Step::Ends("showorder draft", 3, "input order line 1\n"),
            Step::Ends("showorder noise", 3, "input order line 1\n"),
            Step::Ends("showorder ", 2, "words\n"),
            Step::Ends("showorder", 2, "words\n"),
            Step::Ends("showorder load load", 2, "words\n"),
            Step::WasCalled(3, 0, 6),
        ],
    },
];

#[test]
fn orders_are_shown(rt: HostRuntime) -> Result<(), Fail> {
    perform(&rt, FILES, ORDERS_ARE_SHOWN)
}

/// The signatures of an order that verify under a key are named, in their order.
const SIGNERS_ARE_NAMED: &[Play] = &[
    Play {
        failing: &[],
        steps: &[
            Step::Ends("keygen noise one one_public", 0, ONE),
            Step::Ends("keygen noise2 two two_public", 0, TWO),
            Step::Ends(
                "keygen noise3 three three_public",
                0,
                "owner 8cabef904822d47a0493b82b70513d6e474a3085141a5013a4ade20a83aab8ee\n",
            ),
            Step::Ends("sign one draft order", 0, "index 0\n"),
            Step::Ends("ordered one_public order", 0, "in charge\n"),
            Step::Ends("ordered two_public order", 7, "refused 29\n"),
            Step::Ends("countersign two 3 order order", 0, "index 0\n"),
            Step::Ends("countersign one 2 order order", 0, "index 1\n"),
            Step::Ends(
                "showorder order",
                0,
                "order load 1\n\
                target length 5\n\
                version 2\n\
                trust countersigned\n\
                code ba7816bf8f01cfea414140de5dae2223b00361a396177a9cb410ff61f20015ad 3\n\
                body 719b8dcc3296c50a7ed84ac37a52fd7f43c9b4155c9b4282a16d7bf3b4bbba95\n\
                signature 2348\n\
                countersignature 2 2348\n\
                countersignature 3 2348\n",
            ),
            Step::Ends(
                "ordered one_public order",
                0,
                "in charge\n\
                layer 2\n",
            ),
            Step::Ends("ordered two_public order", 0, "layer 3\n"),
            Step::Ends("ordered three_public order", 7, "refused 29\n"),
            Step::IsOrder(
                "order",
                "c45365712e47fb14d5d8b5d25e7069afa98e2ae8c03a682d1cc69fe79563b3ff",
            ),
        ],
    },
    Play {
        failing: &[],
        steps: &[
            Step::Ends("keygen noise one one_public", 0, ONE),
            Step::Ends("ordered one_public load", 7, "refused 29\n"),
            Step::Ends("ordered one_public surrender", 7, "refused 29\n"),
            Step::Ends("ordered one_public draft", 3, "input order line 1\n"),
            Step::Ends("ordered one load", 3, "input public at 0\n"),
            Step::Ends("ordered one_public", 2, "words\n"),
            Step::Ends("ordered  load", 2, "words\n"),
            Step::WasCalled(8, 2, 7),
        ],
    },
];

#[test]
fn signers_are_named(rt: HostRuntime) -> Result<(), Fail> {
    perform(&rt, FILES, SIGNERS_ARE_NAMED)
}

/// An order is countersigned as `countersign` does it, if its body is that of the draft.
const DRAFTS_ARE_COUNTERSIGNED: &[Play] = &[
    Play {
        failing: &[],
        steps: &[
            Step::Ends("keygen noise one one_public", 0, ONE),
            Step::Ends("keygen noise2 two two_public", 0, TWO),
            Step::Ends("keygen noise2 twin two_public", 0, TWO),
            Step::Ends("sign one draft order", 0, "index 0\n"),
            Step::Ends("countersign twin 3 order made", 0, "index 0\n"),
            Step::Ends("cosign two 3 order draft out", 0, "index 0\n"),
            Step::Matches("out", "made"),
            Step::Matches("two", "twin"),
            Step::IsOrder(
                "out",
                "1b0db3669a94e7658c6c264e7d77c29312ba4acdf0eea20f17765b9af37dff9c",
            ),
            Step::Ends("cosign two 2 out again out", 0, "index 1\n"),
            Step::Ends(
                "ordered two_public out",
                0,
                "layer 2\n\
                layer 3\n",
            ),
            Step::Ends(
                "showkey two",
                0,
                "owner 58ef7fca03598093aff0337e08eb4607108c6aa66c14b7565cabf1199a9584e5\n\
                next 2\n\
                left 30\n",
            ),
        ],
    },
    Play {
        failing: &[],
        steps: &[
            Step::Ends("keygen noise one one_public", 0, ONE),
            Step::Ends("keygen noise2 two two_public", 0, TWO),
            Step::Ends("keygen noise2 twin two_public", 0, TWO),
            Step::Ends("sign one draft order", 0, "index 0\n"),
            Step::Ends("cosign two 3 order target out", 7, "differs\n"),
            Step::Ends("cosign two 3 order trust out", 7, "differs\n"),
            Step::Ends("cosign two 3 order byte out", 7, "differs\n"),
            Step::Ends("cosign two 3 order version out", 7, "differs\n"),
            Step::Ends("cosign two 3 order layer out", 7, "differs\n"),
            Step::Ends("cosign two 3 order more out", 7, "differs\n"),
            Step::Ends("cosign two 3 order kind out", 7, "differs\n"),
            Step::Matches("two", "twin"),
            Step::IsMissing("out"),
        ],
    },
    Play {
        failing: &[],
        steps: &[
            Step::Ends("keygen noise one one_public", 0, ONE),
            Step::Ends("sign one draft order", 0, "index 0\n"),
            Step::Ends("cosign spent 3 order draft out", 7, "spent\n"),
            Step::Ends("cosign spent 3 order byte out", 7, "differs\n"),
            Step::Ends("cosign spent 3 own draft out", 7, "not countersignable\n"),
            Step::Ends(
                "cosign spent 3 surrender surrender out",
                3,
                "input draft line 1\n",
            ),
            Step::Ends("cosign used 3 order draft out", 0, "index 31\n"),
            Step::Ends("cosign used 2 order draft out", 7, "spent\n"),
            Step::WasCalled(21, 6, 8),
        ],
    },
    Play {
        failing: &[],
        steps: &[
            Step::Ends("keygen noise2 two two_public", 0, TWO),
            Step::Ends("sign two layer order", 0, "index 0\n"),
            Step::Ends("cosign two 2 order layer out", 7, "not countersignable\n"),
            Step::Ends("cosign two 2 order draft out", 7, "not countersignable\n"),
            Step::Ends("cosign two 3 order layer order", 0, "index 1\n"),
            Step::Ends("cosign two 3 order layer order", 7, "not countersignable\n"),
            Step::Ends("cosign two 1 order layer out", 2, "words\n"),
            Step::Ends("cosign two 4 order layer out", 2, "words\n"),
            Step::Ends("cosign two 3 order layer", 2, "words\n"),
            Step::Ends("cosign two 3 order  out", 2, "words\n"),
            Step::Ends("cosign long 3 order layer out", 3, "input key at 56\n"),
            Step::Ends("cosign two 3 layer layer out", 3, "input order line 1\n"),
            Step::Ends("cosign two 3 order order out", 3, "input draft line 1\n"),
            Step::IsMissing("out"),
        ],
    },
];

#[test]
fn drafts_are_countersigned(rt: HostRuntime) -> Result<(), Fail> {
    perform(&rt, FILES, DRAFTS_ARE_COUNTERSIGNED)
}

/// A key shows how many of its indices are left, and a maker how many of its numbers.
const KEYS_ARE_SHOWN: &[Play] = &[
    Play {
        failing: &[],
        steps: &[
            Step::Ends("keygen noise one one_public", 0, ONE),
            Step::Ends(
                "showkey one",
                0,
                "owner 4f6e9ff38c1bc427d7e117d76edf284a97cc41938a0dc9375856a06c06f87f9b\n\
                next 0\n\
                left 32\n",
            ),
            Step::Ends("sign one draft order", 0, "index 0\n"),
            Step::Ends(
                "showkey one",
                0,
                "owner 4f6e9ff38c1bc427d7e117d76edf284a97cc41938a0dc9375856a06c06f87f9b\n\
                next 1\n\
                left 31\n",
            ),
            Step::Ends(
                "showkey used",
                0,
                "owner 4f6e9ff38c1bc427d7e117d76edf284a97cc41938a0dc9375856a06c06f87f9b\n\
                next 31\n\
                left 1\n",
            ),
            Step::Ends("sign used draft order", 0, "index 31\n"),
            Step::Ends(
                "showkey used",
                0,
                "owner 4f6e9ff38c1bc427d7e117d76edf284a97cc41938a0dc9375856a06c06f87f9b\n\
                next 32\n\
                left 0\n",
            ),
            Step::Ends(
                "showkey spent",
                0,
                "owner 58ef7fca03598093aff0337e08eb4607108c6aa66c14b7565cabf1199a9584e5\n\
                next 32\n\
                left 0\n",
            ),
            Step::Ends("showkey long", 3, "input key at 56\n"),
            Step::Ends("showkey order", 3, "input key at 0\n"),
            Step::Ends("showkey ", 2, "words\n"),
        ],
    },
    Play {
        failing: &[],
        steps: &[
            Step::Ends(
                "hsskeygen noise 2 hss hss_public",
                0,
                "maker d54325968cb96cfed2b10a72297e5019230de2aa9d135a4dba2f28506296c652\n",
            ),
            Step::Ends(
                "showmaker hss",
                0,
                "maker d54325968cb96cfed2b10a72297e5019230de2aa9d135a4dba2f28506296c652\n\
                levels 2\n\
                next 0\n\
                left 1024\n",
            ),
            Step::Ends("keygen noise2 two two_public", 0, TWO),
            Step::Ends("endorse hss two_public endorsement", 0, "index 0\n"),
            Step::Ends(
                "showmaker hss",
                0,
                "maker d54325968cb96cfed2b10a72297e5019230de2aa9d135a4dba2f28506296c652\n\
                levels 2\n\
                next 1\n\
                left 1023\n",
            ),
            Step::Ends(
                "showmaker maker",
                0,
                "maker 947bc68a614ab9812cd14fcd397022ed1807b239b66c1b1558e9ab150cc603a7\n\
                levels 1\n\
                next 32\n\
                left 0\n",
            ),
            Step::Ends(
                "showmaker high",
                0,
                "maker 9bc2395e07b7070829fd29ee6bb935937c242c5e7d6d220c270ce175ffc684da\n\
                levels 8\n\
                next 1\n\
                left 1099511627775\n",
            ),
            Step::Ends("showmaker used", 3, "input key at 0\n"),
            Step::Ends("showmaker", 2, "words\n"),
        ],
    },
];

#[test]
fn keys_are_shown(rt: HostRuntime) -> Result<(), Fail> {
    perform(&rt, FILES, KEYS_ARE_SHOWN)
}
