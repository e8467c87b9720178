//! Rows of the Cryptographic Algorithm Validation Program (NIST, 186-3 SigVer.rsp).

use crate::sample::Sample;
use ts_digest::Hash;
use ts_ecdsa::Curve;

/// Of each curve and hash a signature, and one that is spoiled.
pub const CAVP: &[Sample] = &[
    // a signature
    Sample {
        curve: Curve::P256,
        hash: Hash::Sha256,
        key: "04e424dc61d4bb3cb7ef4344a7f8957a0c5134e16f7a67c074f82e6e12f49abf3c970eed7aa2bc48\
            651545949de1dddaf0127e5965ac85d1243d6f60e7dfaee927",
        message: "e1130af6a38ccb412a9c8d13e15dbfc9e69a16385af3c3f1e5da954fd5e7c45fd75e2b8c36699228\
            e92840c0562fbf3772f07e17f1add56588dd45f7450e1217ad239922dd9c32695dc71ff2424ca0de\
            c1321aa47064a044b7fe3c2b97d03ce470a592304c5ef21eed9f93da56bb232d1eeb0035f9bf0dfa\
            fdcc4606272b20a3",
        signature: "3045022100bf96b99aa49c705c910be33142017c642ff540c76349b9dab72f981fd9347f4f022017\
            c55095819089c2e03b9cd415abdf12444e323075d98f31920b9e0f57ec871c",
        is_good: true,
    },
    // the message differs
    Sample {
        curve: Curve::P256,
        hash: Hash::Sha256,
        key: "0469b7667056e1e11d6caf6e45643f8b21e7a4bebda463c7fdbc13bc98efbd0214d3f9b12eb46c7c\
            6fda0da3fc85bc1fd831557f9abc902a3be3cb3e8be7d1aa2f",
        message: "1669bfb657fdc62c3ddd63269787fc1c969f1850fb04c933dda063ef74a56ce13e3a649700820f00\
            61efabf849a85d474326c8a541d99830eea8131eaea584f22d88c353965dabcdc4bf6b55949fd529\
            507dfb803ab6b480cd73ca0ba00ca19c438849e2cea262a1c57d8f81cd257fb58e19dec7904da97d\
            8386e87b84948169",
        signature: "30440220288f7a1cd391842cce21f00e6f15471c04dc182fe4b14d92dc189108797997900220247b\
            3c4e89a3bcadfea73c7bfd361def43715fa382b8c3edf4ae15d6e55e9979",
        is_good: false,
    },
    // a signature
    Sample {
        curve: Curve::P256,
        hash: Hash::Sha384,
        key: "04ce4dcfa7384c83443ace0fb82c4ac1adfa100a9b2c7bf09f093f8b6d084e50c2d98ae7b91abee6\
            48d0bfde192703741ac21daad7262af418b50e406d825eb0d6",
        message: "d2fcaaede8b879c064b0aa46e68efc278a469b80a7f7e1939ec2ebc96c76206f23395967279c181f\
            ea157ebb79dfadc68e31345f07f13305c80de0d85e4330d3a45f957c5c2526b945838ce5a9c2844b\
            6b2a665c0f70b748b1213a8cf20ba5dbdf8cab231f433da522104a5cd027d3e36bb373c4ed404d9a\
            f0cbec6f85ec2193",
        signature: "30440220597e1e04d93a6b444ccc447a48651f17657ff43fb65fe94461d2bf816b01af400220359f\
            e3817963548e676d6da34c2d0866aa42499237b682002889eaf8893814d2",
        is_good: true,
    },
    // r differs
    Sample {
        curve: Curve::P256,
        hash: Hash::Sha384,
        key: "041b677f535ac69d1acd4592c0d12fac13c9131e5a6f8ab4f9d0afdcb3a3f327e05dca2c73ec89e5\
            8ef8267cba2bb5eb0f551f412f9dc087c1a6944f0ce475277a",
        message: "06cd86481865181cef7acdc3202824970ec2d97662b519c4b588dc9e51617c068282b1a11a15bf7e\
            fc4858a2f37a3d74b05fb5790eb68338c8009b4da9b4270514d387a2e016a99ee109841e884a7909\
            504ef31a5454e214663f830f23a5a76f91402fca5f5d61699fa874597bdbfb1ecff8f07ddbd07ef6\
            1e97d0d5262ef314",
        signature: "3045022100df0b0cd76d2555d4c38b3d70bfdf964884d0beeb9f74385f0893e87d20c9642d022012\
            8299aabf1f5496112be1fe04365f5f8215b08a040abdfeca4626f4d15c005b",
        is_good: false,
    },
    // a signature
    Sample {
        curve: Curve::P256,
        hash: Hash::Sha512,
        key: "049cb0cf69303dafc761d4e4687b4ecf039e6d34ab964af80810d8d558a4a8d6f72d51233a178892\
            0a86ee08a1962c79efa317fb7879e297dad2146db995fa1c78",
        message: "6e2932153301a4eef680e6428929adae988c108d668a31ff55d0489947d75ff81a46bf89e84d6401\
            f023be6e87688fbcd784d785ca846735524acb52d00452c84040a479e7cc330936441d93bbe722a9\
            432a6e1db112b5c9403b10272cb1347fd619d463f7a9d223ad76fde06d8a6883500fb843235abff9\
            8e241bdfb5538c3e",
        signature: "304402204b9f91e4285287261a1d1c923cf619cd52c175cfe7f1be60a5258c610348ba3d022028c4\
            5f901d71c41b298638ec0d6a85d7fcb0c33bbfec5a9c810846b639289a84",
        is_good: true,
    },
    // s differs
    Sample {
        curve: Curve::P256,
        hash: Hash::Sha512,
        key: "04633c2ee5630b62c9ce839efd4d485a6d35e8b9430d264ffe501d28dbace791234b668a1a6d1a25\
            b089f75c2bd8d8c6a9a14fe7b729f45a82565da2e866e2c490",
        message: "fd2e5de421ee46c9fe6290a33f95b394bd5b7762f23178f7f6834f1f056fa9a8831446403c098ff4\
            dd764173f974be4c89d376119613a4a1890f6fc2ddff862bda292dd49f5410d9b1cfe1d97ef4582b\
            6152494372fc083885f540c01f86d780e6f3e75a954af2190fdae9604e3f8ab32ab0292dc0d790bd\
            2627e37b4b4885df",
        signature: "3046022100bf2111c93ec055a7eda90c106fce494fd866045634fd2aa28d6e018f9106994e022100\
            86b0341208a0aa55edecfd272f49cb34408ce54b7febc1d0a1c2ce77ab6988f8",
        is_good: false,
    },
    // a signature
    Sample {
        curve: Curve::P384,
        hash: Hash::Sha256,
        key: "0486ac12dd0a7fe5b81fdae86b12435d316ef9392a3f50b307ab65d9c6079dd0d2d819dc09e22861\
            459c2ed99fbab66faeac8444077aaed6d6ccacbe67a4caacee0b5a094a3575ca12ea4b4774c030fe\
            1c870c9249023f5dc4d9ad6e333668cc38",
        message: "862cf14c65ff85f4fdd8a39302056355c89c6ea1789c056262b077dab33abbfda0070fce188c6330\
            de84dfc512744e9fa0f7b03ce0c14858db1952750d7bbe6bd9c8726c0eae61e6cf2877c655b1f0e0\
            ce825430a9796e7420e5c174eab7a50459e291510bc515141738900d390217c5a522e4bde547e572\
            87d8139dc916504e",
        signature: "30650230798065f1d1cbd3a1897794f4a025ed47565df773843f4fa74c85fe4d30e3a394783ec572\
            3b530fc5f57906f946ce15e8023100b57166044c57c7d9582066805b5885abc06e0bfc02433850c2\
            b74973205ca357a2da94a65172086f5a1580baa697400b",
        is_good: true,
    },
    // the key differs
    Sample {
        curve: Curve::P384,
        hash: Hash::Sha256,
        key: "0497c3f446803a61a7014f61cb7f8b3f36486c7ea96d90ee1767f5c7e1d896dd5114255abb36c74b\
            e218c1f0a4e7ebba3d553ed1fed72c62851e042f0171454f120029adba4ee26855ab881d9470355f\
            1947aa1d2e806a7ff2583660fedbd037a0",
        message: "a444216c9072caf87fa57c1f04aff9cb83dc2ede9968bda41c9d918825e526c2397cb7d771a7e120\
            582424bbea8ecd56a69bb468cd61437f5a65f04953f9d4018c599afd9edbd4d26e861f86829b9496\
            f829f2b601df73e931fff96559e091417c0d8b8c8129443f7efb985d286c7167b66d2b4d5903583a\
            928db3ed6a883117",
        signature: "306402307b06d6c2b63f1cc3bfdaa897d07dc15a83bdf35d979f70c34578332b3f4920422bb24867\
            c51bde10831324df424e04ec02304bef715161f400dc98d4b63bd13ff4ad4a6c981ead44bfc662fe\
            9bca4b56cd790698e4deddf9a4bd69327f26bfe801e6",
        is_good: false,
    },
    // a signature
    Sample {
        curve: Curve::P384,
        hash: Hash::Sha384,
        key: "04cb908b1fd516a57b8ee1e14383579b33cb154fece20c5035e2b3765195d1951d75bd78fb23e00f\
            ef37d7d064fd9af144cd99c46b5857401ddcff2cf7cf822121faf1cbad9a011bed8c551f6f59b2c3\
            60f79bfbe32adbcaa09583bdfdf7c374bb",
        message: "9dd789ea25c04745d57a381f22de01fb0abd3c72dbdefd44e43213c189583eef85ba662044da3de2\
            dd8670e6325154480155bbeebb702c75781ac32e13941860cb576fe37a05b757da5b5b418f6dd7c3\
            0b042e40f4395a342ae4dce05634c33625e2bc524345481f7e253d9551266823771b251705b4a851\
            66022a37ac28f1bd",
        signature: "3064023033f64fb65cd6a8918523f23aea0bbcf56bba1daca7aff817c8791dc92428d605ac629de2\
            e847d43cee55ba9e4a0e83ba02304428bb478a43ac73ecd6de51ddf7c28ff3c2441625a081714337\
            dd44fea8011bae71959a10947b6ea33f77e128d3c6ae",
        is_good: true,
    },
    // the message differs
    Sample {
        curve: Curve::P384,
        hash: Hash::Sha384,
        key: "042039661db813d494a9ecb2c4e0cdd7b54068aae8a5d0597009f67f4f36f32c8ee939abe03716e9\
            4970bba69f595fead6e2d5236e7e357744514e66a3fb111073336de929598eb79fb4368c5bf80814\
            e7584a3b94118faac9321df37452a846fc",
        message: "6462bc8c0181db7d596a35aa25d5d323dd3b2798054c2af6c22e841b1ccf3dc3ee514f86d4a0cef7\
            a6f7f566ae448b24dcc8d11eb7a585d44923ea1a06c774a2b3eb7409ab17a0065d5834ab00309ad4\
            4312a7317259219543e80ddb0cc2a4381bf6e53cd1bb357eba82e11c59f82e446c4b79314119182c\
            0de96a1b5bae0b08",
        signature: "30640230164b8ac2b34c4c499b9d6727e130b5ef37c296bd22c306d1396c6aa54ca661f729aa6353\
            b55d7cf1793b80b5a485115f02304e7187f8f735b7272f2c0985315b5602bb9b1a09f32233aa1057\
            0c82d1ccedef6e725800336511e47f88ddbbbdc08f54",
        is_good: false,
    },
    // a signature
    Sample {
        curve: Curve::P384,
        hash: Hash::Sha512,
        key: "04c665feccf51e6bca31593087df60f65b9fe14a12022814615deb892eedb99d86069a82aa913193\
            10b66588185282dad61e6e25bb8ae7714415b94f89def0f75dcb81d4af6b78d61f277b74b990c11a\
            ff51bd12fc88d691c99f2afde7fbd13e51",
        message: "d497dfe02aa5e4fa13178dc1ebda8807f9ef1656c1abc448619f2e22a809d05551526a0e9706febd\
            9e0f7ec9b791bdabc5989cb1957377110cc53006bece1a025c5bc7e9e64eb1517a6fbfff058e0ae8\
            5d67adee20fe536caaaa9928bf7afc52fe8cc662037dcafcdae4e57630b0c15aa1552372b5bf22f5\
            00cacfdaf52e7b89",
        signature: "306402300e18c4063137468fe864fdc405ad4e120176eb91b4538b28ce43a22ae1a310cc22a2f7a2\
            b3a0f3d15e0f82038b4a430102305a1620e42041ce4357daf824befbb2ed65596bcd8214e8872614\
            9b26b1f416b9472a8877413f1c3705fc2edf4731943b",
        is_good: true,
    },
    // r differs
    Sample {
        curve: Curve::P384,
        hash: Hash::Sha512,
        key: "049c1eb5cdb1a873e4c275b7ded8712b9058ee0d9ded06c96a2a8d7c652b82e894e2f918dd8e1813\
            8e5c34821744b97952dd474c93619f02b5d4fe30ea7805c1a13fb80008a81bb5f3eeb95cd11f3884\
            1b8e34d64f2c6cc2d6cc2587365eed6b6e",
        message: "67caf5a42a7150b0e4905067aaf2828ded4aa245f195dd793984b9feb76c9e2fcffc2326b0af4245\
            0b9e0ea13481aa4dc979bed8633dccbf40e1a3b821a674408dd80d14d8aa411080619b7536c72a46\
            85fb93273428aafe490915f0734387c2a956d7d20a1d93c28c64fe3913cf367705366bca6693d2d2\
            2f6c6fbaeba86be3",
        signature: "3065023100f17b2f2fa3b5c8e9c62a633e5d417139ddf3dafba75b464fa156c99b3948a0aca532c7\
            fd3e14a266eb17e7fa80881da2023001c246866983fa74d6dff38b1ea091f8afd218b5a42467761b\
            147c19a3bb20cd24be8ed1f95f1e61863a709d2d0148e2",
        is_good: false,
    },
    // a signature
    Sample {
        curve: Curve::P521,
        hash: Hash::Sha256,
        key: "0400397714abcc503eaa0c18abd1fd26586d28ec1b1035d37ac710f2823911ec9afa429b41ea89ce\
            c13d5bcae9d6d7147794407e409f3b267cf4dd27e8c77e7ccf4d3600a3a4b749d19b84708e42b59e\
            9faa5a99ac0f0a01121655fab87785fca38c8cd4277c8c2c9a0024ff608c3cce954596315dfe0e3b\
            133aeab08bb5389eb2a4f1fb42",
        message: "961c9451bbb298e17f503680099244d969a0ff3d0ce6cf15b5bcc73d6edc3e8c8535a18531d88566\
            4612cad97da174f1daee6aad95220f6e2fd8c734c57747e46db21e169a03dd673df07aff30848e83\
            70c0960d732e74f9b1d8b53847b69d2cad80f346b50e89d7993cb758fc218668c771422f804d3c91\
            62da98cb30821912",
        signature: "3081870242019da96a866db12948e0aec7231f797061f345739d439bdaaba63e4d03e0bb52c3fea2\
            fb593347d983f24a3afa6a77f476e6bb49a5de843b4c4755cddce97b8b909e02411bb442f428b2ca\
            445a75ad88ed49d965d6659d748d02cebf78faa1ecc187b606f284d11d47791d585dc371c2d91848\
            a55ca7b092f06d561efcf64e0de0814e1db4",
        is_good: true,
    },
    // the key differs
    Sample {
        curve: Curve::P521,
        hash: Hash::Sha256,
        key: "0400defff5ef7cc5de0e1ac32261e7a74e8c434c0b51f76df7566b612cc5b8201e7b38c51aa6118b\
            6307f436394bf452a72224c977e37e410eae9525df2ee00a8123bf00263b7db73558ddc783824f0b\
            19776802aaf5e46ccb1b1d1dda07d2d6c5843f5036ae8d381b235ccd2ed04eb90c5d51e32cbd7acd\
            c7031cae63c06797556fb66fe3",
        message: "77bd3d86c52fe8c327649ce44ccb313cf34d6eee9f6074fd60a9ee3dbf3a84dc680c91703632d6f4\
            ff39b8ea3d13090054d186b4a928b1052caee17dc9bee7a5905ca9bcbcd065be4160c4dd25639f2b\
            23d1ce4837598917d7c86425679de1b33e922e331c1f3f748d3cbd8fc6aec68b73978f5d25d730c8\
            a7fde247edd32822",
        signature: "30818702420089bd129a537840a52ef434d5a8ba4add952f72f22a84ac4523ea0bc02cbfa8b681ab\
            0ed3fa2bca24ae575f23fce7efbb9bfd28e465174158a5ad2b08fd9e0b7132024104ed533337791e\
            05f8d097eabdf4be96b3fcc9f876d47fb8c5c7a05cbddba398cded2edf5ec9b7dbb4e32c1374b469\
            53d66a193c211ef12de4b9d73adc369d5e95",
        is_good: false,
    },
    // a signature
    Sample {
        curve: Curve::P521,
        hash: Hash::Sha384,
        key: "040068801cdbb1e07f4b72218c52aa24bda872f1b2ab4e0c13b686cb8b10096ff88018e821967693\
            59227192752a1c4c884f08cfa7f947ac428651f528bd41d103407301aeb335cb89ecae3cbc05681e\
            2170870dcf40d486db4011c4d7bd84c58c6b3204161d9ca3516760b0c42466605077c96c0540939c\
            635bf5d7d11e1407b6da30c094",
        message: "978116ee2d7fcbf1f5013fc84153c5fae7c1785a2fee2c7bcacd962aef6dc201ac62b04eab505b6a\
            5288ea21d41b64114ce01a0a01c617ffd20d1e70babf1af1523a285494a3fe5bd8619bcf87370caf\
            e1188d9843ce805db9adad563d0d2832833a8898bca03965a2dde6f94d2be5a653eb389b6539ec78\
            844cff4d4df532a8",
        signature: "308187024201ce67a3509d59f8a0f171b86559f1d84589ff2693ff7d3ad3ae64b0e5af85db2fd99b\
            fd7eda6e8f984a87f16767231cbd9026bed0a9a49d74ea5047201227c98f41024132b0e4c043df8e\
            81ff22c9bead36f704c992ec160d6be7764640200e1307002421b5d73154eccde012b463aeefd111\
            38c5b9b705623c2c849736da23c122df06f9",
        is_good: true,
    },
    // the message differs
    Sample {
        curve: Curve::P521,
        hash: Hash::Sha384,
        key: "040066ad5c073425bbbe3a1d97ce6e1a9f2c298392c5afb95c60eee1393f7cd5c9a12c283258b1a5\
            3f2ed4abd13ba1287f3a1b051a09cb0f337cb6cf616dffd16aacc2009d2b2afc181bd82043b13b82\
            22cd206b9264d73b229c71d9abcf74a478a7f7088bc8c7bb1e54882fee693340a3cf1aa56ccc2fb8\
            1d2675b19bba754dae0c2f00c3",
        message: "f209ba5871f0a05677c7ddfaf93d39dcc69467fb6dd99b09c7685958aa155838779f9df0f2ff04b6\
            b80275d2e9abce8285333c18cac19a42a6227ea1ebac521110d393e4e43bdeefdda0b3f9ceb2f3da\
            6c5364d44d2a18795327668624fb8dd8c9e33dbc810f4c24edbecdfaba6ac632f5b2831f42121f13\
            30930902452fbbc5",
        signature: "30818702414e6f08380c43f225169acb0e9f3ff61cdd2e9b713d149f63b5b6a4510d381409648fc1\
            d442fa1bbbce2a8fe1ff7d1de0597f72d7681c79d3a876db6d3ef89ed1920242011745ab4dec3542\
            cbf37d10090d6038bd1ef9cce8216a4069b21e4a08075e7e8502ec97b99d3b18fd314d6ab6826bbb\
            faa2343ada1abc7c3b551c0b854dc45ffa75",
        is_good: false,
    },
    // a signature
    Sample {
        curve: Curve::P521,
        hash: Hash::Sha512,
        key: "040153eb2be05438e5c1effb41b413efc2843b927cbf19f0bc9cc14b693eee26394a0d8880dc946a\
            06656bcd09871544a5f15c7a1fa68e00cdc728c7cfb9c4480348670143ae8eecbce8fcf6b16e6159\
            b2970a9ceb32c17c1d878c09317311b7519ed5ece3374e7929f338ddd0ec0522d81f2fa4fa47033e\
            f0c0872dc049bb89233eef9bc1",
        message: "f69417bead3b1e208c4c99236bf84474a00de7f0b9dd23f991b6b60ef0fb3c62073a5a7abb1ef69d\
            bbd8cf61e64200ca086dfd645b641e8d02397782da92d3542fbddf6349ac0b48b1b1d69fe462d1bb\
            492f34dd40d137163843ac11bd099df719212c160cbebcb2ab6f3525e64846c887e1b52b52eced94\
            47a3d31938593a87",
        signature: "308188024200dd633947446d0d51a96a0173c01125858abb2bece670af922a92dedcec067136c1fa\
            92e5fa73d7116ac9c1a42b9cb642e4ac19310b049e48c53011ffc6e7461c36024200efbdc6a414bb\
            8d663bb5cdb7c586bccfe7589049076f98cee82cdb5d203fddb2e0ffb77954959dfa5ed0de850e42\
            a86f5a63c5a6592e9b9b8bd1b40557b9cd0cc0",
        is_good: true,
    },
    // r differs
    Sample {
        curve: Curve::P521,
        hash: Hash::Sha512,
        key: "04012a593f568ca2571e543e00066ecd3a3272a57e1c94fe311e5df96afc1b792e5862720fc730e6\
            2052bbf3e118d3a078f0144fc00c9d8baaaa8298ff63981d09d911017cea5ae75a74100ee03cdf24\
            68393eef55ddabfe8fd5718e88903eb9fd241e8cbf9c68ae16f4a1db26c6352afcb1894a9812da6d\
            32cb862021c86cd8aa483afc26",
        message: "a0732a605c785a2cc9a3ff84cbaf29175040f7a0cc35f4ea8eeff267c1f92f06f46d3b3543719518\
            5d322cbd775fd24741e86ee9236ba5b374a2ac29803554d715fa4656ac31778f103f88d68434dd20\
            13d4c4e9848a11198b390c3d600d712893513e179cd3d31fb06c6e2a1016fb96ffd970b1489e36a5\
            56ab3b537eb29dff",
        signature: "308187024201aac7692baf3aa94a97907307010895efc1337cdd686f9ef2fd8404796a74701e55b0\
            3ceef41f3e6f50a0eeea11869c4789a3e8ab5b77324961d081e1a3377ccc91024109c1e7d93d056b\
            5a97759458d58c49134a45071854b8a6b8272f9fe7e78e1f3d8097e8a6e731f7ab4851eb26d5aa4f\
            dadba6296dc7af835fe3d1b6dba4b031d5f3",
        is_good: false,
    },
];
