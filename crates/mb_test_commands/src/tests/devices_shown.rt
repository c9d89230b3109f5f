//! What images and chains are shown to hold, and scripts that are tried, against an independent program.

use super::births::owned_device_goes_through;
use super::{A_NEW_DEVICE, A_WHOLE_LIFE, Content, Given, Part, Play, Step, perform};
use mb_model::IMAGE_LENGTH;
use std::test::Fail;

/// A new device, and one with a key that has signed nothing.
const NEW_DEVICES_ARE_SHOWN: &[Step] = &[
    Step::Ends(
        "showimage fresh",
        0,
        "serial c10b471ceff881272aa5ed819fd9a0e0\nnumber 0\nlength 1 128\npending 0\ndevice 0 32\n\
        layer 1 a40bf9d678da59a9e050d292356cbcb44ba41a7e2df7a4cc8f77c8f3acf75b0f \
        f191e625176e7514249870c60bc24622131b04927a418001d1969c9cecd260f1 1 reliable always\n\
        layer 2 - - - unreliable never\nlayer 3 - - - unreliable never\n",
    ),
    Step::Ends(
        "showimage keyed",
        0,
        "serial c10b471ceff881272aa5ed819fd9a0e0\nnumber 4\nlength 6 128\npending 0\ndevice 5 27\n\
        layer 1 a40bf9d678da59a9e050d292356cbcb44ba41a7e2df7a4cc8f77c8f3acf75b0f \
        f191e625176e7514249870c60bc24622131b04927a418001d1969c9cecd260f1 1 reliable always\n\
        layer 2 68cd35f6dc5234d9a7e9df889d48ec8302912dee6f7c9fe17efeffa7bf970b63 \
        ba7816bf8f01cfea414140de5dae2223b00361a396177a9cb410ff61f20015ad 1 reliable countersigned\n\
        layer 3 b3cee4b09ec5e77e7b1285231704c0e8fcdcd7b721946b5bac2437e157b6bae1 \
        cb8379ac2098aa165029e3938a51da0bcecfc008fd6795f401178647f96c5b34 1 reliable countersigned\n\
        key 1 epoch layer 3 0 32\n",
    ),
];

/// The device of a whole life, whose key has signed once.
const ITS_LIFE_IS_SHOWN: &[Step] = &[Step::Ends(
    "showimage image",
    0,
    "serial c10b471ceff881272aa5ed819fd9a0e0\nnumber 6\nlength 8 128\npending 0\ndevice 1 31\n\
    layer 1 a40bf9d678da59a9e050d292356cbcb44ba41a7e2df7a4cc8f77c8f3acf75b0f \
    7692c3ad3540bb803c020b3aee66cd8887123234ea0c6e7143c0add73ff431ed 2 reliable always\n\
    layer 2 68cd35f6dc5234d9a7e9df889d48ec8302912dee6f7c9fe17efeffa7bf970b63 \
    ba7816bf8f01cfea414140de5dae2223b00361a396177a9cb410ff61f20015ad 1 reliable countersigned\n\
    layer 3 b3cee4b09ec5e77e7b1285231704c0e8fcdcd7b721946b5bac2437e157b6bae1 \
    50ae61e841fac4e8f9e40baf2ad36ec868922ea48368c18f9535e47db56dd7fb 2 reliable countersigned\n\
    secret 2 pin 4\nsecret 3 token 2\nkey 1 epoch layer 3 1 31\n",
)];

/// Images that are not shown.
const OTHER_IMAGES: &[Step] = &[
    Step::Gives(Given {
        name: "dead",
        content: Content::Laid(&[("", IMAGE_LENGTH, 0)]),
    }),
    Step::Gives(Given {
        name: "erased",
        content: Content::Laid(&[("", IMAGE_LENGTH, 0xFF)]),
    }),
    Step::Gives(Given {
        name: "longer",
        content: Content::Sevens(4_194_305),
    }),
    Step::Ends("showimage", 2, "words\n"),
    Step::Ends("showimage ", 2, "words\n"),
    Step::Ends("showimage fresh fresh", 2, "words\n"),
    Step::Ends("showimage missing", 4, "read failed image\n"),
    Step::Ends("showimage longer", 3, "input image too long\n"),
    Step::Ends("showimage public0", 3, "input image length\n"),
    Step::Ends("showimage erased", 3, "input image root\n"),
    Step::Ends("showimage dead", 7, "zeroised\n"),
];

/// Scripts are tried on a device, which stays as it was: the second trial finds no more than the first.
const TRIALS: &[Step] = &[
    Step::Writes(
        "trial",
        &[Part::Text(
            "boot\ngo\nput 2 pin 31323334\nget 2 pin\ngo\nsign 3 1 68656c6c6f\nstatus\noff\n",
        )],
    ),
    Step::Ends(
        "rehearse keyed trial nothing",
        0,
        "booted\nat 2\nkept\nvalue -\nat 3\nsigned 1 0 -\n\
        status c10b471ceff881272aa5ed819fd9a0e0 4 6 runnable runnable runnable\noff\n",
    ),
    Step::Matches("keyed", "image"),
    Step::Ends(
        "rehearse keyed trial nothing",
        0,
        "booted\nat 2\nkept\nvalue -\nat 3\nsigned 1 0 -\n\
        status c10b471ceff881272aa5ed819fd9a0e0 4 6 runnable runnable runnable\noff\n",
    ),
    Step::Writes(
        "loads",
        &[
            Part::Text("boot\n"),
            Part::File("order6"),
            Part::File("order7"),
            Part::Text("off\n"),
        ],
    ),
    Step::Ends(
        "rehearse keyed loads noise",
        0,
        "booted\ndone 5 7\ndone 6 8\noff\n",
    ),
    Step::Writes("tampering", &[Part::Text("off\ntamper\n")]),
    Step::Ends("rehearse keyed tampering nothing", 0, "off\ntampered\n"),
    Step::Ends("rehearse keyed nothing nothing", 0, ""),
    Step::Matches("keyed", "image"),
    // the rehearsed script is served
    Step::Ends(
        "run image trial nothing",
        0,
        "booted\nat 2\nkept\nvalue 31323334\nat 3\nsigned 1 0 0000000*\n\
        status c10b471ceff881272aa5ed819fd9a0e0 4 6 runnable runnable runnable\noff\n",
    ),
];

/// Scripts that a device does not obey to their ends.
const UNOBEYED_TRIALS: &[Step] = &[
    Step::Writes("image", &[Part::File("keyed")]),
    Step::Writes(
        "trial",
        &[Part::Text(
            "# orders are tried\n\nboot\ncommand 00\nget 2 pin\ngo\nstatus\ncommand 00\noff\n",
        )],
    ),
    Step::Ends(
        "rehearse keyed trial noise",
        7,
        "booted\nrefused 10 text\nabsent\nat 2\n\
        status c10b471ceff881272aa5ed819fd9a0e0 4 6 runnable runnable runnable\nrefused 2 phase\noff\n\
        first 4 refused 10 text\n",
    ),
    Step::Writes(
        "trial",
        &[Part::Text(
            "boot\ngo\ncut 1 keep 0 fill 00\n# power is lost\n\nput 2 pin 31323334\nboot\nget 2 pin\noff\n",
        )],
    ),
    Step::Ends(
        "rehearse keyed trial nothing",
        7,
        "booted\nat 2\narmed\nstopped\nbooted\nabsent\noff\nfirst 6 stopped\n",
    ),
    Step::Gives(Given {
        name: "dead",
        content: Content::Laid(&[("", IMAGE_LENGTH, 0)]),
    }),
    Step::Writes("trial", &[Part::Text("off\nboot\n")]),
    Step::Ends(
        "rehearse dead trial nothing",
        7,
        "off\nrefused 3 zeroised\nfirst 2 refused 3 zeroised\n",
    ),
    Step::Matches("keyed", "image"),
];

/// Rehearsals that end before an event is served.
const OTHER_TRIALS: &[Step] = &[
    Step::Writes("jump", &[Part::Text("boot\njump\n")]),
    Step::Writes("trial", &[Part::Text("command 00\n")]),
    Step::Gives(Given {
        name: "few",
        content: Content::Sevens(31),
    }),
    Step::Gives(Given {
        name: "longer",
        content: Content::Sevens(4_194_305),
    }),
    Step::Ends("rehearse keyed trial", 2, "words\n"),
    Step::Ends("rehearse keyed trial noise noise", 2, "words\n"),
    Step::Ends("rehearse keyed  noise", 2, "words\n"),
    Step::Ends("rehearse missing jump few", 4, "read failed image\n"),
    Step::Ends("rehearse public0 jump few", 3, "input image length\n"),
    Step::Ends("rehearse keyed missing few", 4, "read failed script\n"),
    Step::Ends("rehearse keyed longer few", 3, "input script too long\n"),
    Step::Ends("rehearse keyed jump few", 3, "input script line 2\n"),
    Step::Ends("rehearse keyed trial missing", 4, "read failed noise\n"),
    Step::Ends("rehearse keyed trial few", 3, "input noise length\n"),
    Step::Matches("keyed", "image"),
];

/// The history of a new device, which has no key yet, so that no key's number is asked for.
const A_NEW_DEVICE_IS_TOLD_OF: &[Step] = &[
    Step::Ends("chain fresh born", 0, "entries 1\n"),
    Step::Ends(
        "history public0 born",
        0,
        "serial c10b471ceff881272aa5ed819fd9a0e0\nentry 0 birth\n\
        layer 1 a40bf9d678da59a9e050d292356cbcb44ba41a7e2df7a4cc8f77c8f3acf75b0f \
        f191e625176e7514249870c60bc24622131b04927a418001d1969c9cecd260f1 1 reliable always\n\
        layer 2 - - - unreliable never\nlayer 3 - - - unreliable never\n",
    ),
];

/// The history of a whole life, and of the chain with the statement that was made before its end.
const A_LIFE_IS_TOLD: &[Step] = &[
    Step::Ends(
        "history public0 chain",
        0,
        "serial c10b471ceff881272aa5ed819fd9a0e0\n\
        entry 0 birth\n\
        layer 1 a40bf9d678da59a9e050d292356cbcb44ba41a7e2df7a4cc8f77c8f3acf75b0f \
        f191e625176e7514249870c60bc24622131b04927a418001d1969c9cecd260f1 1 reliable always\n\
        layer 2 - - - unreliable never\nlayer 3 - - - unreliable never\n\
        entry 1 establish 2 configuration 1 countersigned - kept -\n\
        layer 1 a40bf9d678da59a9e050d292356cbcb44ba41a7e2df7a4cc8f77c8f3acf75b0f \
        f191e625176e7514249870c60bc24622131b04927a418001d1969c9cecd260f1 1 reliable always\n\
        layer 2 68cd35f6dc5234d9a7e9df889d48ec8302912dee6f7c9fe17efeffa7bf970b63 - - unreliable countersigned\n\
        layer 3 - - - unreliable never\n\
        entry 2 establish 3 configuration 2 countersigned - kept 2\n\
        layer 1 a40bf9d678da59a9e050d292356cbcb44ba41a7e2df7a4cc8f77c8f3acf75b0f \
        f191e625176e7514249870c60bc24622131b04927a418001d1969c9cecd260f1 1 reliable always\n\
        layer 2 68cd35f6dc5234d9a7e9df889d48ec8302912dee6f7c9fe17efeffa7bf970b63 - - unreliable countersigned\n\
        layer 3 b3cee4b09ec5e77e7b1285231704c0e8fcdcd7b721946b5bac2437e157b6bae1 - - unreliable countersigned\n\
        entry 3 emergency 2 configuration 3 countersigned - kept -\n\
        layer 1 a40bf9d678da59a9e050d292356cbcb44ba41a7e2df7a4cc8f77c8f3acf75b0f \
        f191e625176e7514249870c60bc24622131b04927a418001d1969c9cecd260f1 1 reliable always\n\
        layer 2 68cd35f6dc5234d9a7e9df889d48ec8302912dee6f7c9fe17efeffa7bf970b63 \
        ba7816bf8f01cfea414140de5dae2223b00361a396177a9cb410ff61f20015ad 1 reliable countersigned\n\
        layer 3 b3cee4b09ec5e77e7b1285231704c0e8fcdcd7b721946b5bac2437e157b6bae1 - - unreliable countersigned\n\
        entry 4 emergency 3 configuration 4 countersigned - kept 2\n\
        layer 1 a40bf9d678da59a9e050d292356cbcb44ba41a7e2df7a4cc8f77c8f3acf75b0f \
        f191e625176e7514249870c60bc24622131b04927a418001d1969c9cecd260f1 1 reliable always\n\
        layer 2 68cd35f6dc5234d9a7e9df889d48ec8302912dee6f7c9fe17efeffa7bf970b63 \
        ba7816bf8f01cfea414140de5dae2223b00361a396177a9cb410ff61f20015ad 1 reliable countersigned\n\
        layer 3 b3cee4b09ec5e77e7b1285231704c0e8fcdcd7b721946b5bac2437e157b6bae1 \
        cb8379ac2098aa165029e3938a51da0bcecfc008fd6795f401178647f96c5b34 1 reliable countersigned\n\
        entry 5 newkey 1 epoch layer 3\n\
        entry 6 load 1 configuration 5 countersigned 2,3 kept 2,3\n\
        layer 1 a40bf9d678da59a9e050d292356cbcb44ba41a7e2df7a4cc8f77c8f3acf75b0f \
        7692c3ad3540bb803c020b3aee66cd8887123234ea0c6e7143c0add73ff431ed 2 reliable always\n\
        layer 2 68cd35f6dc5234d9a7e9df889d48ec8302912dee6f7c9fe17efeffa7bf970b63 \
        ba7816bf8f01cfea414140de5dae2223b00361a396177a9cb410ff61f20015ad 1 reliable countersigned\n\
        layer 3 b3cee4b09ec5e77e7b1285231704c0e8fcdcd7b721946b5bac2437e157b6bae1 \
        cb8379ac2098aa165029e3938a51da0bcecfc008fd6795f401178647f96c5b34 1 reliable countersigned\n\
        entry 7 load 3 configuration 6 countersigned - kept 2,3\n\
        layer 1 a40bf9d678da59a9e050d292356cbcb44ba41a7e2df7a4cc8f77c8f3acf75b0f \
        7692c3ad3540bb803c020b3aee66cd8887123234ea0c6e7143c0add73ff431ed 2 reliable always\n\
        layer 2 68cd35f6dc5234d9a7e9df889d48ec8302912dee6f7c9fe17efeffa7bf970b63 \
        ba7816bf8f01cfea414140de5dae2223b00361a396177a9cb410ff61f20015ad 1 reliable countersigned\n\
        layer 3 b3cee4b09ec5e77e7b1285231704c0e8fcdcd7b721946b5bac2437e157b6bae1 \
        50ae61e841fac4e8f9e40baf2ad36ec868922ea48368c18f9535e47db56dd7fb 2 reliable countersigned\n\
        key 1 epoch layer 3 alive\n",
    ),
    Step::Ends("attach chain statement attached", 0, "entries 6\n"),
    Step::Ends(
        "history public0 attached",
        0,
        "serial c10b471ceff881272aa5ed819fd9a0e0\n\
        entry 0 birth\nlayer 1 a40bf9d6*\nlayer 2 - - - unreliable never\nlayer 3 - - - unreliable never\n\
        entry 1 establish 2 configuration 1 countersigned - kept -\n\
        layer 1 a40bf9d6*\nlayer 2 68cd35f6*\nlayer 3 - - - unreliable never\n\
        entry 2 establish 3 configuration 2 countersigned - kept 2\n\
        layer 1 a40bf9d6*\nlayer 2 68cd35f6*\nlayer 3 b3cee4b0*\n\
        entry 3 emergency 2 configuration 3 countersigned - kept -\n\
        layer 1 a40bf9d6*\nlayer 2 68cd35f6*\nlayer 3 b3cee4b0*\n\
        entry 4 emergency 3 configuration 4 countersigned - kept 2\n\
        layer 1 a40bf9d6*\nlayer 2 68cd35f6*\nlayer 3 b3cee4b0*\n\
        entry 5 newkey 1 epoch layer 3\n\
        key 1 epoch layer 3 alive\n\
        statement 1 4 68656c6c6f\n",
    ),
];

/// Chains that are not told of.
const OTHER_CHAINS: &[Step] = &[
    Step::Gives(Given {
        name: "longer",
        content: Content::Sevens(4_194_305),
    }),
    Step::Ends("history public0", 2, "words\n"),
    Step::Ends("history public0 ", 2, "words\n"),
    Step::Ends("history public0 chain 1", 2, "words\n"),
    Step::Ends("history missing missing", 4, "read failed root\n"),
    Step::Ends("history longer missing", 3, "input root too long\n"),
    Step::Ends("history chain missing", 3, "input root at 0\n"),
    Step::Ends("history public0 missing", 4, "read failed chain\n"),
    Step::Ends("history public0 longer", 3, "input chain too long\n"),
    Step::Ends("history public0 public0", 7, "refused 20 0\n"),
    Step::Ends("history public1 chain", 7, "refused 21 0\n"),
    // a statement by a key that this chain does not make
    Step::Ends("attach born statement early", 0, "entries 1\n"),
    Step::Ends("history public0 early", 7, "refused 25\n"),
    // a statement that was made before the last entries
    Step::Writes(
        "late",
        &[
            Part::Slice("chain", 0, 20_649),
            Part::Slice("attached", 15_299, 17_658),
        ],
    ),
    Step::Ends("history public0 late", 7, "refused 26\n"),
];

/// Keys end with each load of their layer, and the device's own key is succeeded after 32 signatures.
const A_LONG_LIFE_IS_TOLD: &[Step] = &[
    Step::Ends("sign officer2 draft8 load2", 0, "index 3\n"),
    Step::Ends("sign officer2 draft9 key", 0, "index 4\n"),
    Step::Writes(
        "nine",
        &[
            Part::File("key"),
            Part::File("key"),
            Part::File("key"),
            Part::File("key"),
            Part::File("key"),
            Part::File("key"),
            Part::File("key"),
            Part::File("key"),
            Part::File("load2"),
        ],
    ),
    Step::Writes("image", &[Part::File("keyless")]),
    Step::Serves(
        &[
            Part::Text("boot\n"),
            Part::File("nine"),
            Part::File("nine"),
            Part::File("nine"),
            Part::File("key"),
            Part::Text("off\n"),
        ],
        "noise",
        "booted\ndone 4 6\ndone 4 7\ndone 4 8\ndone 4 9\ndone 4 10\ndone 4 11\ndone 4 12\ndone 4 13\ndone 5 14\n\
        done 5 15\ndone 5 16\ndone 5 17\ndone 5 18\ndone 5 19\ndone 5 20\ndone 5 21\ndone 5 22\ndone 6 23\n\
        done 6 24\ndone 6 25\ndone 6 26\ndone 6 27\ndone 6 28\ndone 6 29\ndone 6 30\ndone 6 31\ndone 7 32\n\
        done 7 34\noff\n",
    ),
    Step::Ends(
        "showimage image",
        0,
        "serial c10b471ceff881272aa5ed819fd9a0e0\nnumber 7\nlength 34 128\n\
        pending 0\ndevice 1 31\nlayer 1 a40bf9d6*\nlayer 2 68cd35f6*\nlayer 3 b3cee4b0*\n\
        key 26 configuration layer 2 0 32\n",
    ),
    Step::Ends("chain image chain", 0, "entries 34\n"),
    Step::Ends(
        "history public0 chain",
        0,
        "serial c10b471ceff881272aa5ed819fd9a0e0\nentry 0 birth\nlayer 1 a40bf9d6*\nlayer 2 - - - unreliable never\n\
        layer 3 - - - unreliable never\nentry 1 establish 2 configuration 1 countersigned - kept -\n\
        layer 1 a40bf9d6*\nlayer 2 68cd35f6*\nlayer 3 - - - unreliable never\n\
        entry 2 establish 3 configuration 2 countersigned - kept 2\nlayer 1 a40bf9d6*\nlayer 2 68cd35f6*\n\
        layer 3 b3cee4b0*\nentry 3 emergency 2 configuration 3 countersigned - kept -\nlayer 1 a40bf9d6*\n\
        layer 2 68cd35f6*\nlayer 3 b3cee4b0*\nentry 4 emergency 3 configuration 4 countersigned - kept 2\n\
        layer 1 a40bf9d6*\nlayer 2 68cd35f6*\nlayer 3 b3cee4b0*\nentry 5 newkey 1 configuration layer 2\n\
        entry 6 newkey 2 configuration layer 2\nentry 7 newkey 3 configuration layer 2\n\
        entry 8 newkey 4 configuration layer 2\nentry 9 newkey 5 configuration layer 2\n\
        entry 10 newkey 6 configuration layer 2\nentry 11 newkey 7 configuration layer 2\n\
        entry 12 newkey 8 configuration layer 2\nentry 13 load 2 configuration 5 countersigned - kept 2\n\
        layer 1 a40bf9d6*\nlayer 2 68cd35f6*\nlayer 3 b3cee4b0*\nentry 14 newkey 9 configuration layer 2\n\
        entry 15 newkey 10 configuration layer 2\nentry 16 newkey 11 configuration layer 2\n\
        entry 17 newkey 12 configuration layer 2\nentry 18 newkey 13 configuration layer 2\n\
        entry 19 newkey 14 configuration layer 2\nentry 20 newkey 15 configuration layer 2\n\
        entry 21 newkey 16 configuration layer 2\nentry 22 load 2 configuration 6 countersigned - kept 2\n\
        layer 1 a40bf9d6*\nlayer 2 68cd35f6*\nlayer 3 b3cee4b0*\nentry 23 newkey 17 configuration layer 2\n\
        entry 24 newkey 18 configuration layer 2\nentry 25 newkey 19 configuration layer 2\n\
        entry 26 newkey 20 configuration layer 2\nentry 27 newkey 21 configuration layer 2\n\
        entry 28 newkey 22 configuration layer 2\nentry 29 newkey 23 configuration layer 2\n\
        entry 30 newkey 24 configuration layer 2\nentry 31 load 2 configuration 7 countersigned - kept 2\n\
        layer 1 a40bf9d6*\nlayer 2 68cd35f6*\nlayer 3 b3cee4b0*\nentry 32 succession\n\
        entry 33 newkey 26 configuration layer 2\nkey 1 configuration layer 2 ended\n\
        key 2 configuration layer 2 ended\nkey 3 configuration layer 2 ended\nkey 4 configuration layer 2 ended\n\
        key 5 configuration layer 2 ended\nkey 6 configuration layer 2 ended\nkey 7 configuration layer 2 ended\n\
        key 8 configuration layer 2 ended\nkey 9 configuration layer 2 ended\nkey 10 configuration layer 2 ended\n\
        key 11 configuration layer 2 ended\nkey 12 configuration layer 2 ended\nkey 13 configuration layer 2 ended\n\
        key 14 configuration layer 2 ended\nkey 15 configuration layer 2 ended\nkey 16 configuration layer 2 ended\n\
        key 17 configuration layer 2 ended\nkey 18 configuration layer 2 ended\nkey 19 configuration layer 2 ended\n\
        key 20 configuration layer 2 ended\nkey 21 configuration layer 2 ended\nkey 22 configuration layer 2 ended\n\
        key 23 configuration layer 2 ended\nkey 24 configuration layer 2 ended\nkey 26 configuration layer 2 alive\n",
    ),
];

const FILES: &[Given] = &[
    Given {
        name: "dead",
        content: Content::Laid(&[("", IMAGE_LENGTH, 0)]),
    },
    Given {
        name: "off",
        content: Content::Text("off\n"),
    },
    Given {
        name: "boot",
        content: Content::Text("boot\n"),
    },
    Given {
        name: "nothing",
        content: Content::Text(""),
    },
];

/// Neither the lines nor what would report this can be printed. What is refused has its own status all the same.
const NOT_PRINTED: &[Play] = &[Play {
    failing: &[3, 4, 8, 10],
    steps: &[
        Step::Ends("rehearse dead off nothing", 5, ""),
        Step::Ends("rehearse dead boot nothing", 7, ""),
        Step::Ends("showimage dead", 7, ""),
        Step::WasCalled(7, 0, 4),
    ],
}];

#[test]
fn devices_are_shown(rt: HostRuntime) -> Result<(), Fail> {
    owned_device_goes_through(
        &rt,
        &[
            NEW_DEVICES_ARE_SHOWN,
            OTHER_IMAGES,
            A_NEW_DEVICE,
            A_WHOLE_LIFE,
            ITS_LIFE_IS_SHOWN,
        ],
    )
}

#[test]
fn scripts_are_tried(rt: HostRuntime) -> Result<(), Fail> {
    owned_device_goes_through(&rt, &[TRIALS, UNOBEYED_TRIALS, OTHER_TRIALS])
}

#[test]
fn histories_are_told(rt: HostRuntime) -> Result<(), Fail> {
    owned_device_goes_through(
        &rt,
        &[
            A_NEW_DEVICE_IS_TOLD_OF,
            A_NEW_DEVICE,
            A_WHOLE_LIFE,
            A_LIFE_IS_TOLD,
            OTHER_CHAINS,
        ],
    )
}

#[test]
fn a_long_life_is_told(rt: HostRuntime) -> Result<(), Fail> {
    owned_device_goes_through(&rt, &[A_LONG_LIFE_IS_TOLD])
}

#[test]
fn nothing_is_printed(rt: HostRuntime) -> Result<(), Fail> {
    perform(&rt, FILES, NOT_PRINTED)
}
