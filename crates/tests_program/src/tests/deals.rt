//! The deals of three parties on which the tests run. Each pays the next one: alice 100, bob 5 and
//! carol 1 unit, and alice leads.

use crate::tests::runs::asks;
use std::alloc::Global;
use std::test::Fail;

/// With hashkeys.
pub(crate) const HASHKEYS: &str = concat!(
    r#"{"swap":1,"mode":"hashkeys","start":10,"delta":10,"bound":2,"parties":[{"name":"alice","#,
    r#""seed":"2bd806c97f0e00af1a1fc3328fa763a9269723c8db8fac4f93af71db186d6e90"},"#,
    r#"{"name":"bob","seed":"81b637d8fcd2c6da6359e6963113a1170de795e4b725b84d1e0b4cfd9ec58ce9"},"#,
    r#"{"name":"carol","seed":"4c26d9074c27d89ede59270c0ac14b71e071b15239519f75474b2f3ba63481f5"}],"#,
    r#""arcs":[{"from":"alice","to":"bob","amount":100},{"from":"bob","to":"carol","amount":5},"#,
    r#"{"from":"carol","to":"alice","amount":1}],"leaders":[{"party":"alice","#,
    r#""hashlock":"ea381ac043404cf24964de83dde5ee9adbfcdcef2bb48271931448055eaaf421"}],"#,
    r#""finish":"stop","keys":[["31583369e9ff44aff743d7f94b180419872ec4076a0b5c2443ad4878996ec5ad"],"#,
    r#"["dd147d79f078dcc52f78226d19c49d208f5e9c66de3e616ea727bb4ab9728109"],"#,
    r#"["dc95245e8d1aa79edd6dd48c32ff8b0f2b9be3136a1a7f1943386afd96644212"]]}
"#,
);

/// With timelocks.
pub(crate) const TIMELOCKS: &str = concat!(
    r#"{"swap":1,"mode":"timelocks","start":10,"delta":10,"bound":2,"parties":[{"name":"alice","#,
    r#""seed":"2bd806c97f0e00af1a1fc3328fa763a9269723c8db8fac4f93af71db186d6e90"},"#,
    r#"{"name":"bob","seed":"81b637d8fcd2c6da6359e6963113a1170de795e4b725b84d1e0b4cfd9ec58ce9"},"#,
    r#"{"name":"carol","seed":"4c26d9074c27d89ede59270c0ac14b71e071b15239519f75474b2f3ba63481f5"}],"#,
    r#""arcs":[{"from":"alice","to":"bob","amount":100,"timelock":60},{"from":"bob","to":"carol","amount":5,"timelock":50},"#,
    r#"{"from":"carol","to":"alice","amount":1,"timelock":40}],"leaders":[{"party":"alice","#,
    r#""hashlock":"ea381ac043404cf24964de83dde5ee9adbfcdcef2bb48271931448055eaaf421"}]}
"#,
);

/// The text with each edit made in it. Edits are parted by ` && `, and each is `FROM => TO`, where
/// FROM stands in the text.
pub(crate) fn edited(alloc: Global, text: &str, edits: &str) -> Result<String, Fail> {
    let mut edited = String::from_str(alloc, text)?;
    for edit in edits.split(" && ") {
        let (from, to) = edit.split_once(" => ").ok_or("no edit")?;
        asks(edited.as_str().contains(from), "found nowhere", edit)?;
        edited = edited.replacen(alloc, from, to, 1)?;
    }
    Ok(edited)
}
