//! The headers of jobs.

/// Alice leads, and pays bob 100, who pays carol 5, who pays alice 1.
pub(crate) const AROUND: &str = r#"{"swap":1,"mode":"timelocks","start":10,"delta":10,"bound":2,
"parties":[{"name":"alice","actor":"manual"},{"name":"bob","actor":"manual"},{"name":"carol","actor":"manual"}],
"arcs":[
    {"from":"alice","to":"bob","amount":100,"timelock":60},
    {"from":"bob","to":"carol","amount":5,"timelock":50},
    {"from":"carol","to":"alice","amount":1,"timelock":40}],
"leaders":[{"party":"alice","hashlock":"66687aadf862bd776c8fc18b8e9f8e20089714856ee233b3902a591d0d5f2925"}]}"#;

/// The swap of alice, bob and carol with hashkeys.
pub(crate) const THREE: &str = r#"{"swap":1,"mode":"hashkeys","start":10,"delta":10,"bound":2,
"parties":[{"name":"alice","actor":"manual"},{"name":"bob","actor":"manual"},{"name":"carol","actor":"manual"}],
"arcs":[
    {"from":"alice","to":"bob","amount":100},
    {"from":"bob","to":"carol","amount":5},
    {"from":"carol","to":"alice","amount":1}],
"leaders":[{"party":"alice","hashlock":"ea381ac043404cf24964de83dde5ee9adbfcdcef2bb48271931448055eaaf421"}],
"keys":[
    ["31583369e9ff44aff743d7f94b180419872ec4076a0b5c2443ad4878996ec5ad"],
    ["dd147d79f078dcc52f78226d19c49d208f5e9c66de3e616ea727bb4ab9728109"],
    ["dc95245e8d1aa79edd6dd48c32ff8b0f2b9be3136a1a7f1943386afd96644212"]]}"#;
