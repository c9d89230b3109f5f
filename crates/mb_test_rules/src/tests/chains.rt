//! Chains of one entry, and reports, against values of another program. If there is memory, no call may answer that
//! there is none; the clauses leave this open.

ghost use Rattle.std.specs.Prelude.{◌≤◌, vec_len, IfOk};

use super::{joined, public_key};
use hex::FromHex;
use mb_model::{
    Bytes, CodeName, Configuration, KeyKind, Layer, Layers, Lives, Report, Said, Trust, Trusts,
};
use mb_verifier::{ChainRefusal, verify, write_listing};
use std::alloc::Global;
use std::process::Abort;
use std::test::Fail;

/// The beginning of a chain of one entry: its word, and the number of its entries.
const HEAD: &str = "4d4243310001";

/// A birth: a serial, a device key, and the layers of a new device.
const BIRTH: &str =
    "0041414141414141414141414141414141000000050000000343434343434343434343434343434343444444444444444444\
4444444444444444444444444444444444444444444444070000000005000000031111111111111111111111111111111112\
1212121212121212121212121212121212121212121212121212121212121213131313131313131313131313131313131313\
131313131313131313131313130000010200010001";

/// The maker's signature of `BIRTH`, with index 0.
const SIGNATURE: &str =
    "00000000000000032a7cc4e9963b818d32f8f9ba138b9a4ee445132dd828db97ddf226155783a296974dd8d896e4758623d1\
8a0a056bb142279f2e8b2cfb8f76f69b7f5562e870966a1d17c558ed400897470386d80d421dae491fec5617cc682db8ce3a\
79de1e214e4f93ee5031317023a738a9343eff4411395c827955430a663454250576e269494205f4abb1ed0855e73cfb1d2d\
fd5465044177f92a9f8610139d9127bf83d05cb6042fdb695556488dc18c19dbad57058da85de29bf4fb7e754045922f89ac\
122875f095c633446b4a03f78541ad2f7b831e40eb498a6226dd04ad04d82fbea471224b7e34eb1af3e893820471523bd199\
5ffd6acd77074ff4d6b37d451667c0eab36fa97508b35d4f28c8545c8f92bab1962711e30f10877afd719be9488c6fac7afb\
e0a451fff8427e0a79c3c803ffc57c194b3df3c10c41bf1058b87eefa5aebb352a2524a142c29ae27fc6a905b35e07ee4af4\
51c9a0031b6f0068e48c6dcd078e2245d8b36ac0e6efc9e3bac72ae6e28a3ae280742d04dfff1a1257cbc6f4497815ea84eb\
019a195c6a8705bdb74b7826323ec71153239c7d407d7df666d474f46808f4f5e4907dc729010e0c2c9abfd924b3f73f83b6\
23ec32d7636e4b3b2429b5cb60f2d22d21e7e7d2ecf3ed39f8b2ed60ccad12adf92cb07a23c4212aa060bcd547fbbe8bbcc5\
d4a4aed1fef953d3cad185cb35e5526d0680750f45dacd256edabd7422d46cc06558966929f937117079c960cf27be346561\
d6b4e5622ed6a0e32b6443d1d5e207dcb5f3a37dc1b84a0624dc195b0db516cdd8853d77b450ed9ee456301e3e4bc623e840\
1fdc7926ca6dc3f9d326b9f705aa7e3fb8c094574ee851d589fe254cb0bbfcf68f7a846d8c795ef4e2e0d49697f25d7ca26d\
f5616f99acc0dfaba3ccf273197ac68094653edd81e0d50f5162f8188ced07d3451b8390c0abfdaeaad4c8a4abe36a179dee\
5f038431542838a3948f39fac960ce896988955428633740b75c9202d4b16ceb09f3fc4b5936534c6546489d6b5bbb3e18f4\
7124cff2dd7502137feca0318a698b08c0c43bf700bf3606bda9ff38000499cdfa812453405d5773d745579540abda285378\
d3714765665a7881ca54a0911b754467d8d05aad5e4041ce7408d9635560ce14fe0cc76f14498c1e07cad63ca37e595d7052\
65568063bc5125fdd2d37d6381a87c8c392d80012ecedd301010bb106a21f7161a183f6249990fb2014bc2ec3601b67bde38\
94e54f02fe4dfde718a423a039454536ef141b0764430f2f87d46ac6b69c72a0bfcea1cd6cc2834664e8ab23e21d8f77968a\
1a597d11407d54db132021201fbf91e00ed8dcd5f0e431cfd9498180e1205f4271ede6b236622d27c7ff9c53049b378e0772\
07ea1d6580c3aeb3bf04913d387a6a5945f3ea674f06fcd26f2a8cee8371977fcffb698d2635189239efb1e81ca9458d14d9\
39d86a87c118b2377917f39c71941962a8e6fb86d99d874cbdb9ffc3baf4b41ac5bcd95ab86d2d06c5f12c90e44ef1150fe2\
5a9c3ac5724a91584ffdd37c168b0bb5350b4e40deb348f6339db1fae81fdd6b9b1cc45a70bad47c145f1f61d94926ce37e5\
375e12d1a906ce667670bf8a44acf54dafebe6c55b813384e86cc3b4e303479d8ddd8313d1226b992cf00613d558ca0c7457\
b5cd0f878bedc16ab28b2b99f54b15f2cc73d37b7ed874655f45909d2446220c830a3d98abb31518b2d61edc9ab67d59d4de\
baeb0ae92e20d77f84c90362cddd374b364bd05f52cc0c020dcd5d64fdbc9800efcaf0a186fad1abb917376fda66cc12c86f\
668c7f75fe65c814555c339e9d0db4cdc70e45377ea2ed0a11bfce4b3da814a9aea9ca8ff583a44572d1c391c0eb2b94b5ac\
37219f548293b510a19b96421ffff5e974adac6536f6867d1c8714e40617f6468841b0165ade7ff52c16241891557be08f38\
231bcd0edb2e329db1950773e97a4593320e5c89cc1a682fd77ec30aab566ba6b8d30b65c57abe9550a23f8fc34fe71c123b\
acc204cbf8060f8520da51920767d94932a7ed04b12776d40642a005da31f67153f20d3bafb53a6ecc1d97cbbc3fb580bcac\
3f84bb33c6991bd7adf5813cdafd14cfb4b6d2699ed95af3f27e26539e3b3bd6e4f24108c5f1c7f74e3c4389e0aeae0a470e\
dd5d51188c0e8ad5a3b648df70be43b973a6ea4b2aa01accbd69a1dd90b9cb7a9086172aebc506bbd380111538b61fa80d2b\
0bbe97dddb55fa7808a2ef7c3d294dbd80e832fa7870c176373fab4791dd28b38be3c41572b853374a4bb7731923f0f0c10c\
5d2e3251f430678097bc0c7ce87b84621d1304ad8a6b42af14c74ed87ae88ae8bd1e07b6018a5e1099d4448177b04095f98f\
8add0d1d2a63495bd70414c1b6cf6176855864d8196a9224e8e3bf88425ae8e2f545956f600f9249c6195ec9624c98fa7380\
d984b9ca0b92580735f09a8873f23d45418c4de32066873c246442578808c49916b99c004a9f9777ad4a00969e8e7d132775\
c94e357c2518073fd9d77bd2924187a4be2356ede005c375fe2c672bf4a3e9b946b3c602ccb8b86aecc4f1a730f31deddebe\
f3c6ef1de3855d9a47cd7108b251e9306744549693741a93c32d26e3415c9b900f045246187111e57e42f605532e4476c586\
7f36809c0d56ec605c0d036a1b0940b1b2999e49bd9b80f67274e69dfa450c503683e26e3d52d73d269804ede561da391d4c\
e044f32c3502c76ea424eb03082e9470f4027c3ae31471fbcd0cdfdcc88d7276b193f089af9acb46bfa4017f370281b4f5d6\
c9bfb23378050d7d2eff4ec8b8bae63a8064f0354dfb1149d564e3142d897859b70ca9ab1bdc939edcbeb6c9fed02f33573d\
f9fc601222496a54442f28064079af6c603c3985e8eab0fe5a6f1025dc44d3ef24ea3df54f1bd5b1a737b70d96f8b10bf648\
a7f86e5d8291bab2bce83354344b61f2a772fb2a8d8f9f52b5ef692653b1cd6ee96ae285fdcb8bf068d7c283824be68b3830\
f9874ea4a61d2d367e775c47ac633092dcb3f56658cfed7c5d42aba38fd61434728500000005779d116afefe417957e99eb2\
e20e11c51e6557e896f819c63cf48b221f5a1dfa4d45304f906dff35de1ae7a75c06a406fd42c7b78fdd3bcac46b4f151af1\
3ca824b1c42ed89ac6632c82492fd299153ce9f37647a7e733b08de441b0ba9bad6f32246936e4b3cf178b5d875ef5a4f03d\
83256de2800f8c8d6174f209c38cae998b4375bf4aa07a7ad08134ae5d0fdcd252cd3ba56a2e91f8edee882aa54e4810";

/// The maker's key.
const MAKER: &str =
    "000000050000000345e47fb59aa5a55f0f83d81c6d9de2ea40811d1aa53e467789ef706d859ed038\
b16e8bee901fca5c6f44384e54216c13";

/// Another key.
const OTHER: &str =
    "0000000500000003415f9f8fc3e618dd8524180f3db6a7c9a7881c4ccb3521694cbdd14fd42b0822\
cdfb7c6f9fc531cab957f755e6a2d2bc";

/// The chain with `byte` in place of the one at offset `at`, or appended if `at` is its length, 2,526.
fn changed(alloc: Global, at: usize, byte: u8) -> Result<Vec<u8>, Fail>
    ensures { IfOk result (λ bytes. vec_len bytes ≤ 4000) }
{
    let mut bytes = joined(alloc, &[HEAD, BIRTH, SIGNATURE, "00"])?;
    if at < bytes.len() {
        bytes[at] = byte;
    } else {
        bytes.push(byte)?;
    }
    bytes.truncate(4_000);
    Ok(bytes)
}

/// The changed chain is refused under the key `maker`, for the reason `why`.
fn is_refused(
    rt: &impl Abort,
    alloc: Global,
    maker: &str,
    at: usize,
    byte: u8,
    why: ChainRefusal,
) -> Result<(), Fail> {
    let root = public_key(maker)?;
    let bytes = changed(alloc, at, byte)?;
    assert!(rt; verify(alloc, &root, &bytes, 1).err() == Some(why));
    Ok(())
}

/// A maker's key, a byte of the chain, its new value, and the refusal.
const CHANGES: &[(&str, usize, u8, ChainRefusal)] = &[
    (MAKER, 0, 0x4d, ChainRefusal::KeyUnknown),
    (MAKER, 3, 0x32, ChainRefusal::Form { at: 0 }),
    (MAKER, 5, 0, ChainRefusal::Form { at: 4 }),
    (MAKER, 5, 129, ChainRefusal::Form { at: 4 }),
    (MAKER, 5, 2, ChainRefusal::Form { at: 2526 }),
    (MAKER, 6, 4, ChainRefusal::Form { at: 6 }),
    (MAKER, 2525, 2, ChainRefusal::Form { at: 2525 }),
    (MAKER, 2525, 1, ChainRefusal::Form { at: 2526 }),
    (MAKER, 2526, 0, ChainRefusal::Form { at: 2526 }),
    (MAKER, 7, 0, ChainRefusal::Signature { entry: 0 }),
    (MAKER, 2524, 0, ChainRefusal::Signature { entry: 0 }),
    (OTHER, 0, 0x4d, ChainRefusal::Signature { entry: 0 }),
];

#[test]
fn chains_of_one_entry(rt: HostRuntime) -> Result<(), Fail> {
    for (maker, at, byte, why) in CHANGES {
        is_refused(&rt, rt.alloc(), maker, *at, *byte, *why)?;
    }
    Ok(())
}

/// The owners of three layers, and the hash of the code of each.
const OWNERS: [&str; 3] = [
    "00000005000000032c1e471084d7886d5f0740149d4a4dd663675ac2fc0917d5ccba80ed9aa73ad44c990ee150f972892aeb3c35912a162e",
    "0000000500000003456f47e33661bea750d0d7834df1866ee01637b5c1d8b439b648b48180b105614fe7f19f31e54ccdcdab1be127d73256",
    "00000005000000032b3c1b4e3d51a925d662ac9ab43d1e6d57db50033b2205b89cb11153586437879a1a9f1c382306bb2ba53efd5549e358",
];

const CODES: [&str; 3] = [
    "f191e625176e7514249870c60bc24622131b04927a418001d1969c9cecd260f1",
    "ba7816bf8f01cfea414140de5dae2223b00361a396177a9cb410ff61f20015ad",
    "cb8379ac2098aa165029e3938a51da0bcecfc008fd6795f401178647f96c5b34",
];

/// A layer with this owner and the first version of this code.
fn loaded(owner: &str, code: &str, trust: Trust) -> Result<Layer, Fail> {
    Ok(Layer {
        owner: Some(public_key(owner)?),
        code: Some(CodeName {
            hash: <[u8; 32] as FromHex>::from_hex(code)?,
            version: 1,
        }),
        reliable: true,
        trust: Trusts::equal(trust),
    })
}

/// Three layers with these owners and codes.
fn stated() -> Result<Layers, Fail> {
    Ok(Layers {
        one: loaded(OWNERS[0], CODES[0], Trust::Always)?,
        two: loaded(OWNERS[1], CODES[1], Trust::Countersigned)?,
        three: loaded(OWNERS[2], CODES[2], Trust::Countersigned)?,
    })
}

/// The listing of a report on a key of layer 3 over the layers of `stated`. The key lives, and has stated hello.
const STATED: &str = "key 1 epoch layer 3 alive\n\
configuration 4\n\
layer 1 a40bf9d678da59a9e050d292356cbcb44ba41a7e2df7a4cc8f77c8f3acf75b0f f191e625176e7514249870c60bc24622131b04927a418001d1969c9cecd260f1 1 reliable always\n\
layer 2 68cd35f6dc5234d9a7e9df889d48ec8302912dee6f7c9fe17efeffa7bf970b63 ba7816bf8f01cfea414140de5dae2223b00361a396177a9cb410ff61f20015ad 1 reliable countersigned\n\
layer 3 b3cee4b09ec5e77e7b1285231704c0e8fcdcd7b721946b5bac2437e157b6bae1 cb8379ac2098aa165029e3938a51da0bcecfc008fd6795f401178647f96c5b34 1 reliable countersigned\n\
statement 68656c6c6f\n";

/// The listing of the report of `STATED`, with a layer 3 that trusts all loads of layer 1 and none of layer 2.
const STATED_APART: &str = "key 1 epoch layer 3 alive\n\
configuration 4\n\
layer 1 a40bf9d678da59a9e050d292356cbcb44ba41a7e2df7a4cc8f77c8f3acf75b0f f191e625176e7514249870c60bc24622131b04927a418001d1969c9cecd260f1 1 reliable always\n\
layer 2 68cd35f6dc5234d9a7e9df889d48ec8302912dee6f7c9fe17efeffa7bf970b63 ba7816bf8f01cfea414140de5dae2223b00361a396177a9cb410ff61f20015ad 1 reliable countersigned\n\
layer 3 b3cee4b09ec5e77e7b1285231704c0e8fcdcd7b721946b5bac2437e157b6bae1 cb8379ac2098aa165029e3938a51da0bcecfc008fd6795f401178647f96c5b34 1 reliable always never\n\
statement 68656c6c6f\n";

/// The layers of `stated`, with a layer 3 that trusts all loads of layer 1 and none of layer 2.
fn stated_apart() -> Result<Layers, Fail> {
    let mut layers = stated()?;
    layers.three.trust = Trusts {
        one: Trust::Always,
        two: Trust::Never,
    };
    Ok(layers)
}

/// A layer with little to list.
const BARE: Layer = Layer {
    owner: None,
    code: None,
    reliable: false,
    trust: Trusts {
        one: Trust::Never,
        two: Trust::Never,
    },
};

/// Three layers with little to list.
const ALL_BARE: Layers = Layers {
    one: BARE,
    two: BARE,
    three: BARE,
};

/// The listing of a report on a key of layer 2 over the layers `ALL_BARE`. The key has ended, and has stated the empty
/// message.
const ENDED: &str = "key 20 configuration layer 2 ended\n\
configuration 3\n\
layer 1 - - - unreliable never\n\
layer 2 - - - unreliable never\n\
statement -\n";

/// The listing of the report of `ENDED`, if the key stated the answer abc to the input `an input`.
const ENDED_CALLED: &str = "key 20 configuration layer 2 ended\n\
configuration 3\n\
layer 1 - - - unreliable never\n\
layer 2 - - - unreliable never\n\
called 4fddb6e92a8333684779335007eda9426ddd8ea849ce4ab7c8340016d9d9d89a 616263\n";

/// The hash of `an input`.
const INPUT: &str = "4fddb6e92a8333684779335007eda9426ddd8ea849ce4ab7c8340016d9d9d89a";

/// What a statement of this message says.
fn message(alloc: Global, message: &[u8]) -> Result<Said, Fail> {
    Ok(Said::Message(Bytes::copy(alloc, message)?))
}

/// The report on key `number` is listed as `listing`. The key lived in the configuration `life` alone and stated
/// `said`. An epoch key lives, and another has ended.
fn is_listed(
    rt: &impl Abort,
    alloc: Global,
    number: u32,
    kind: KeyKind,
    life: Configuration,
    said: Said,
    listing: &str,
) -> Result<(), Fail> {
    let mut lives = Lives::new(alloc);
    lives.push(life)?;
    let report = Report {
        layer: life.upto,
        kind,
        alive: kind == KeyKind::Epoch,
        lives,
        entries: 6,
        said: Some(said),
    };
    let text = write_listing(alloc, number, &report)?;
    assert!(rt; text.as_slice() == listing.as_bytes());
    Ok(())
}

#[test]
fn reports_are_listed(rt: HostRuntime) -> Result<(), Fail> {
    let alloc = rt.alloc();
    let life = Configuration {
        number: 4,
        upto: 3,
        layers: stated()?,
    };
    let said = message(alloc, b"hello")?;
    is_listed(&rt, alloc, 1, KeyKind::Epoch, life, said, STATED)?;
    let life = Configuration {
        number: 4,
        upto: 3,
        layers: stated_apart()?,
    };
    let said = message(alloc, b"hello")?;
    is_listed(&rt, alloc, 1, KeyKind::Epoch, life, said, STATED_APART)
}

#[test]
fn reports_on_keys_that_ended_are_listed(rt: HostRuntime) -> Result<(), Fail> {
    let alloc = rt.alloc();
    let life = Configuration {
        number: 3,
        upto: 2,
        layers: ALL_BARE,
    };
    let said = message(alloc, b"")?;
    is_listed(&rt, alloc, 20, KeyKind::Configuration, life, said, ENDED)?;
    let said = Said::Answer {
        input: <[u8; 32] as FromHex>::from_hex(INPUT)?,
        answer: Bytes::copy(alloc, b"abc")?,
    };
    is_listed(
        &rt,
        alloc,
        20,
        KeyKind::Configuration,
        life,
        said,
        ENDED_CALLED,
    )
}
