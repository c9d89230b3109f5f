//! A device whose layer 3 trusts all loads of layer 1 and none of layer 2, against values of an independent program.

use super::births::new_device_goes_through;
use super::{Content, Given, Part, Step};
use std::test::Fail;

/// The orders of the device, as they are signed and countersigned. Layer 2 alone countersigns the load of layer 1.
const ORDERS: &[Step] = &[
    Step::Ends(
        "keygen noise3 officer3 public3",
        0,
        "owner b3cee4b09ec5e77e7b1285231704c0e8fcdcd7b721946b5bac2437e157b6bae1\n",
    ),
    Step::Writes(
        "draft2",
        &[Part::Text(
            "order establish 3\nowner 00000005000000032b3c1b4e3d51a925d662ac9ab43d1e6d57db50033b2205b8\
                9cb11153586437879a1a9f1c382306bb2ba53efd5549e358\ntrust always never\n",
        )],
    ),
    Step::Ends("sign officer2 draft2 order2", 0, "index 0\n"),
    Step::IsOrder(
        "order2",
        "00829447a09958864d74d7487f0a5de95639478752575ed1a97eab5db2381126",
    ),
    Step::Writes(
        "draft4",
        &[Part::Text("order emergency 3\nversion 1\ntrust always never\ncode 646566\n")],
    ),
    Step::Ends("sign officer2 draft4 order4", 0, "index 1\n"),
    Step::IsOrder(
        "order4",
        "db17886b2f8dd67ff550d1f4e6e7b84b76a98a170e630f076bba321cec0f09e4",
    ),
    Step::Ends("sign officer3 draft5 order5", 0, "index 0\n"),
    Step::IsOrder(
        "order5",
        "e05cc9d8e6c64cbadf88418b40de34a45cb4ad87f9b3eb623b8f705a3a736538",
    ),
    Step::Ends("sign officer1 draft6 load", 0, "index 2\n"),
    Step::Ends("countersign officer2 2 load order6", 0, "index 2\n"),
    Step::IsOrder(
        "order6",
        "55a9120bddbf36c8cbdcb6edbd03ea34c996fa8055fd2e46650d24bdee1b8e4d",
    ),
    Step::Writes(
        "draft7",
        &[Part::Text("order load 2\nversion 2\ntrust countersigned\ncode 676869\n")],
    ),
    Step::Ends("sign officer2 draft7 order7", 0, "index 3\n"),
    Step::IsOrder(
        "order7",
        "f5e02026f0b449118e5d8d28df6cb15a32ef285828761c087b35a4e6cbefbfb7",
    ),
];

/// What layer 3 keeps stays over the load of layer 1, and is gone after that of layer 2.
const A_LIFE: &[Step] = &[
    Step::Gives(Given {
        name: "draws",
        content: Content::Hex(
            "5a987be47b7794ba2aaa984652c5d4ff3afc13c02a0f5a8bbac5a1588077979c914e9a3f97a93043b622220eb51d5e054956\
            cfdd4be7472ef670a3856c35a9a0da2dc294bfea6634fe54b0131112488438c36ec36db8b34410d46f5daa6e00cf8453bf85\
            b7d0398bd232f2c9c1b36dae09ec1599ab40228d41edd451e86e90f867d84c2e9f44b415aaed06982d746d93985ecaf0095a\
            c280c445bc05ad58a247da98bc3d71ca439ee3f9ab2eadc53b025429783c78bd26fea3b0ceeb08cd50eeb61388ef49047831\
            5661fbb06e396a3da2a634c575a848ec4146e17d72686ab6",
        ),
    }),
    Step::Writes("image", &[Part::File("fresh")]),
    Step::Serves(
        &[
            Part::Text("boot\n"),
            Part::File("order1"),
            Part::File("order2"),
            Part::File("order3"),
            Part::File("order4"),
            Part::File("order5"),
            Part::Text(
                "go\nput 2 pin 31323334\ngo\nput 3 token 00ff\nsign 3 1 68656c6c6f\noff\nboot\n",
            ),
            Part::File("order6"),
            Part::Text("get 3 token\n"),
            Part::File("order7"),
            Part::Text("get 2 pin\nget 3 token\nstatus\noff\n"),
        ],
        "draws",
        "booted\ndone 1 2\ndone 2 3\ndone 3 4\ndone 4 5\ndone 4 6\nat 2\nkept\nat 3\nkept\n\
        signed 1 0 000000040568656c6c6f0000000000000003027b799c6e*\noff\nbooted\ndone 5 7\nvalue 00ff\n\
        done 6 8\nvalue 31323334\nrefused 4 layer\n\
        status c10b471ceff881272aa5ed819fd9a0e0 6 8 runnable runnable unreliable\noff\n",
    ),
    Step::KeepsStatement("statement"),
];

/// Key 1 of layer 3 ended with the load of layer 2, and the chain with its statement ends before.
const ITS_CHAIN: &[Step] = &[
    Step::Ends("chain image chain", 0, "entries 8\n"),
    Step::HasHash(
        "chain",
        "797520b4c0dbaa2f452da8724173142355f91a07ed41e859af7709c22f34053f",
    ),
    Step::Ends(
        "verify public0 chain 1",
        0,
        "key 1 epoch layer 3 ended\n\
        configuration 4\n\
        layer 1 a40bf9d678da59a9e050d292356cbcb44ba41a7e2df7a4cc8f77c8f3acf75b0f \
        f191e625176e7514249870c60bc24622131b04927a418001d1969c9cecd260f1 1 reliable always\n\
        layer 2 68cd35f6dc5234d9a7e9df889d48ec8302912dee6f7c9fe17efeffa7bf970b63 \
        ba7816bf8f01cfea414140de5dae2223b00361a396177a9cb410ff61f20015ad 1 reliable countersigned\n\
        layer 3 b3cee4b09ec5e77e7b1285231704c0e8fcdcd7b721946b5bac2437e157b6bae1 \
        cb8379ac2098aa165029e3938a51da0bcecfc008fd6795f401178647f96c5b34 1 reliable always never\n\
        configuration 5\n\
        layer 1 a40bf9d678da59a9e050d292356cbcb44ba41a7e2df7a4cc8f77c8f3acf75b0f \
        7692c3ad3540bb803c020b3aee66cd8887123234ea0c6e7143c0add73ff431ed 2 reliable always\n\
        layer 2 68cd35f6dc5234d9a7e9df889d48ec8302912dee6f7c9fe17efeffa7bf970b63 \
        ba7816bf8f01cfea414140de5dae2223b00361a396177a9cb410ff61f20015ad 1 reliable countersigned\n\
        layer 3 b3cee4b09ec5e77e7b1285231704c0e8fcdcd7b721946b5bac2437e157b6bae1 \
        cb8379ac2098aa165029e3938a51da0bcecfc008fd6795f401178647f96c5b34 1 reliable always never\n",
    ),
    Step::Ends("audit image public0 chain 1", 0, "agrees\n"),
    Step::Ends("attach chain statement attached", 0, "entries 6\n"),
    Step::HasHash(
        "attached",
        "8e9ffd1585cbbbbaf7e43425e3364b8ebc67031c70e0a62f435ec2b4c72651fd",
    ),
    Step::Ends(
        "verify public0 attached 1",
        0,
        "key 1 epoch layer 3 alive\n\
        configuration 4\n\
        layer 1 a40bf9d678da59a9e050d292356cbcb44ba41a7e2df7a4cc8f77c8f3acf75b0f \
        f191e625176e7514249870c60bc24622131b04927a418001d1969c9cecd260f1 1 reliable always\n\
        layer 2 68cd35f6dc5234d9a7e9df889d48ec8302912dee6f7c9fe17efeffa7bf970b63 \
        ba7816bf8f01cfea414140de5dae2223b00361a396177a9cb410ff61f20015ad 1 reliable countersigned\n\
        layer 3 b3cee4b09ec5e77e7b1285231704c0e8fcdcd7b721946b5bac2437e157b6bae1 \
        cb8379ac2098aa165029e3938a51da0bcecfc008fd6795f401178647f96c5b34 1 reliable always never\n\
        statement 68656c6c6f\n",
    ),
];

#[test]
fn two_trusts(rt: HostRuntime) -> Result<(), Fail> {
    new_device_goes_through(&rt, &[ORDERS, A_LIFE, ITS_CHAIN])
}
