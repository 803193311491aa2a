//! Headers of rings: party 0 leads, each pays the next 1,000,000 units, and the keys are those of
//! the seeds of 32 bytes 0, 1, 2 and so on.

/// Three parties.
pub(crate) fn three() -> &'static str {
    r#"{"swap":1,"mode":"hashkeys","start":10,"delta":10,"bound":23,
"parties":[
    {"name":"p0","actor":"manual"},{"name":"p1","actor":"manual"},{"name":"p2","actor":"manual"}],
"arcs":[
    {"from":"p0","to":"p1","amount":1000000},{"from":"p1","to":"p2","amount":1000000},{"from":"p2","to":"p0","amount":1000000}],
"leaders":[{"party":"p0","hashlock":"8c0cc17a04942cc4f8e0fe0b302606d3108860c126428ba2ceeb5f9ed41c2b05"}],
"keys":[
    ["6d38fd065055be89fda3637d7feeb578084b27021313f045a9ef5a58c4e7f1e0"],["c4522de19184d84a321a17ae12f385107c95c237244afd44a599eb5014325b68"],
    ["a57970db73bdc3964a02606a1206d0b0f426f1880a7f8b2cdafdaf55783e90f3"]]}"#
}

/// As many parties as a deal may have.
pub(crate) fn twenty_four() -> &'static str {
    r#"{"swap":1,"mode":"hashkeys","start":10,"delta":10,"bound":23,
"parties":[
    {"name":"p0","actor":"manual"},{"name":"p1","actor":"manual"},{"name":"p2","actor":"manual"},{"name":"p3","actor":"manual"},
    {"name":"p4","actor":"manual"},{"name":"p5","actor":"manual"},{"name":"p6","actor":"manual"},{"name":"p7","actor":"manual"},
    {"name":"p8","actor":"manual"},{"name":"p9","actor":"manual"},{"name":"p10","actor":"manual"},{"name":"p11","actor":"manual"},
    {"name":"p12","actor":"manual"},{"name":"p13","actor":"manual"},{"name":"p14","actor":"manual"},{"name":"p15","actor":"manual"},
    {"name":"p16","actor":"manual"},{"name":"p17","actor":"manual"},{"name":"p18","actor":"manual"},{"name":"p19","actor":"manual"},
    {"name":"p20","actor":"manual"},{"name":"p21","actor":"manual"},{"name":"p22","actor":"manual"},{"name":"p23","actor":"manual"}],
"arcs":[
    {"from":"p0","to":"p1","amount":1000000},{"from":"p1","to":"p2","amount":1000000},{"from":"p2","to":"p3","amount":1000000},
    {"from":"p3","to":"p4","amount":1000000},{"from":"p4","to":"p5","amount":1000000},{"from":"p5","to":"p6","amount":1000000},
    {"from":"p6","to":"p7","amount":1000000},{"from":"p7","to":"p8","amount":1000000},{"from":"p8","to":"p9","amount":1000000},
    {"from":"p9","to":"p10","amount":1000000},{"from":"p10","to":"p11","amount":1000000},{"from":"p11","to":"p12","amount":1000000},
    {"from":"p12","to":"p13","amount":1000000},{"from":"p13","to":"p14","amount":1000000},{"from":"p14","to":"p15","amount":1000000},
    {"from":"p15","to":"p16","amount":1000000},{"from":"p16","to":"p17","amount":1000000},{"from":"p17","to":"p18","amount":1000000},
    {"from":"p18","to":"p19","amount":1000000},{"from":"p19","to":"p20","amount":1000000},{"from":"p20","to":"p21","amount":1000000},
    {"from":"p21","to":"p22","amount":1000000},{"from":"p22","to":"p23","amount":1000000},{"from":"p23","to":"p0","amount":1000000}],
"leaders":[{"party":"p0","hashlock":"8c0cc17a04942cc4f8e0fe0b302606d3108860c126428ba2ceeb5f9ed41c2b05"}],
"keys":[
    ["6d38fd065055be89fda3637d7feeb578084b27021313f045a9ef5a58c4e7f1e0"],["c4522de19184d84a321a17ae12f385107c95c237244afd44a599eb5014325b68"],
    ["a57970db73bdc3964a02606a1206d0b0f426f1880a7f8b2cdafdaf55783e90f3"],["935e4e7571342def43e962c7fe2e1e35fa6783e7a1211b45e2cb8f073e484f4a"],
    ["4b3f1d52d584ef63a2631f82cb72b03311ecc6f6ff6887ff3c458f87cc4a421d"],["c39c3098c12fc89180e5a24ab33e4beaa5d3dcbc439fd10807101ce3045524a5"],
    ["2782d3970997f92f68ae6a2c3f48bdd0b73db120ef8fb4eccea884fd16682d3a"],["00c67b5e63fbc6da7a1aa547b4db78e98d1ea9856036e6d053d63caae99d35b7"],
    ["a79092837fe5c3e458001b76b8725e83251b23d67109b818d2971a0e6fc0347a"],["d46cc5d50b620cd8c9df29d551090a23792c542782a522c28a887b68062ff273"],
    ["181a223cedde8c634807c15dbab782c2ed826a824cb6795a0bdb26f636af1de2"],["551a55be3d2ebf47bf40ca3ef4580530fab84b1e65ab927f5f00f4200bdd65dd"],
    ["c5b84a0a534dd6bde804f168489fbf8a70461e5cd48fa12756edadc3e5ac0c57"],["ce47b68f6e6d771e0c75f1df9f1b6ce3dac0cc46183cb1bd92c90cfee0422fd3"],
    ["1ee5e6155c73cf19ab6f8a1d43263f932fa25fb2bf7e280ae4bf9b40e468e338"],["4d0176dedf448edbec0aaade2095533705b0b0ef7bfc3115efafb5514308ad74"],
    ["e9fa64aecef6c9c710d4f5dc1e665269d76398c076fe4c6c8a8e6533375b10d7"],["8c61d7e558cb6924d2c6e6934b6b96e29c5d43ad496a74012152aa1cd4523b7e"],
    ["72b510f7a16b65daa4ce2fbe081c4b866d5fe27e0ef1fef8e6062e1d0beeac2a"],["12851ffc4c610f0867921af5fd60cf102677d636f0cf9de187fb33f831061fb8"],
    ["98e1f4b9c28ba49ac266497c6315d9c9b6ef5bf32fa4f64e389714d24abcd779"],["914c27dc1d69451a0d9a8967a77f9a51b56e387ffaa63b6840177a95d535e6ce"],
    ["e3d475f39e42b6bc49b958b70da67816c660edf4815d689f6e07cd343f5d1657"],["9b8856909c8541fd60a5c6be36ecd494f45b22996a1484cc374c69f61eea56a5"]]}"#
}
