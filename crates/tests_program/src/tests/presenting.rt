//! Hashkeys that are presented where they don't belong.

use crate::tests::attackers::Attacker;
use crate::tests::attacks::attack;
use crate::tests::deals::{HASHKEYS, TIMELOCKS};
use std::test::Fail;

/// Three parties of whom two lead.
const TWO_LEADERS: &str = concat!(
    r#"{"swap":1,"mode":"hashkeys","start":10,"delta":10,"bound":2,"parties":[{"name":"a","#,
    r#""seed":"ca978112ca1bbdcafac231b39a23dc4da786eff8147c4e72b9807785afee48bb"},"#,
    r#"{"name":"b","seed":"3e23e8160039594a33894f6564e1b1348bbd7a0088d42c4acb73eeaed59c009d"},"#,
    r#"{"name":"c","seed":"2e7d2c03a9507ae265ecf5b5356885a53393a2029d241394997265a1a25aefc6"}],"arcs":[{"from":"a","to":"b","amount":1},"#,
    r#"{"from":"b","to":"a","amount":1},{"from":"b","to":"c","amount":1},"#,
    r#"{"from":"c","to":"a","amount":1}],"leaders":[{"party":"a","hashlock":"#,
    r#""d621fc44e761dd2e6709de873cedc50a6b731539fe930f4d927b9894262c3f09"},"#,
    r#"{"party":"b","hashlock":"4cb601008ecbea9e403b05f7e851766c4dafdebc4184fa6a6b00cf5c85011752"}],"#,
    r#""finish":"fair","keys":[["37685c623ad2736a37d5a69faa07b989b63f6be3742dcf453201cea7ac3b4beb","#,
    r#""3f1d4fe12dfee7e93ac096b77a4b6f7cb3b4ef4453f56c6952ca69557e84df3b"],"#,
    r#"["d2dfcc20f32c35313e4a0588b92df68154966d2ae589a5a2b0e56dd5f0ef81e6","36145da11c0f079d2b420307ad1f378329b0786f75516dcf4fe9fab5ad62c56d"],"#,
    r#"["4a0620154ef1fd24b94576bf51416777c8de64850edb498d430f354ddece3942","#,
    r#""036155481350f8af7779c9ef5ce6c5a5d5e980a14870410a25298559026211c2"]]}
"#,
);

/// Carol presents alice's hashkey to bob.
const OF_CAROL: &str = r#""carol", => "carol","actor":{"strategy":"attacker"}, && "stop" => "fair"
done
swap report 1
swap hashkeys start 10 delta 10 bound 2
ledger 0 alice -> bob amount 100
0 alice publish correct: accepted
61 alice refund: accepted
end height 71 alice 100 bob 0 held 0
ledger 1 bob -> carol amount 5
0 bob publish correct: accepted
4 carol unlock 0 via alice: WrongPath
5 carol unlock 0 via alice: WrongPath
6 carol unlock 0 via alice: WrongPath
7 carol unlock 0 via alice: WrongPath
8 carol unlock 0 via alice: WrongPath
9 carol unlock 0 via alice: WrongPath
10 carol unlock 0 via alice: WrongPath
11 carol unlock 0 via alice: WrongPath
12 carol unlock 0 via alice: WrongPath
13 carol unlock 0 via alice: WrongPath
14 carol unlock 0 via alice: WrongPath
15 carol unlock 0 via alice: WrongPath
16 carol unlock 0 via alice: WrongPath
17 carol unlock 0 via alice: WrongPath
18 carol unlock 0 via alice: WrongPath
19 carol unlock 0 via alice: WrongPath
20 carol unlock 0 via alice: WrongPath
21 carol unlock 0 via alice: WrongPath
22 carol unlock 0 via alice: WrongPath
23 carol unlock 0 via alice: WrongPath
24 carol unlock 0 via alice: WrongPath
25 carol unlock 0 via alice: WrongPath
26 carol unlock 0 via alice: WrongPath
27 carol unlock 0 via alice: WrongPath
28 carol unlock 0 via alice: WrongPath
29 carol unlock 0 via alice: WrongPath
30 carol unlock 0 via alice: WrongPath
31 carol unlock 0 via alice: WrongPath
32 carol unlock 0 via alice: WrongPath
33 carol unlock 0 via alice: WrongPath
34 carol unlock 0 via alice: WrongPath
35 carol unlock 0 via alice: WrongPath
61 bob refund: accepted
end height 71 bob 5 carol 0 held 0
ledger 2 carol -> alice amount 1
0 carol publish correct: accepted
1 alice unlock 0 via alice: accepted
1 alice claim: accepted
end height 71 carol 0 alice 1 held 0
party alice conforming: FreeRide
party bob conforming: NoDeal
party carol deviator: Underwater
findings 0
"#;

/// Bob presents carol's hashkey to alice.
const OF_BOB: &str = r#""bob", => "bob","actor":{"strategy":"attacker"}, && "stop" => "fair"
done
swap report 1
swap hashkeys start 10 delta 10 bound 2
ledger 0 alice -> bob amount 100
0 alice publish correct: accepted
4 bob unlock 0 via carol,alice: WrongPath
5 bob unlock 0 via carol,alice: WrongPath
6 bob unlock 0 via carol,alice: WrongPath
7 bob unlock 0 via carol,alice: WrongPath
8 bob unlock 0 via carol,alice: WrongPath
9 bob unlock 0 via carol,alice: WrongPath
10 bob unlock 0 via carol,alice: WrongPath
11 bob unlock 0 via carol,alice: WrongPath
12 bob unlock 0 via carol,alice: WrongPath
13 bob unlock 0 via carol,alice: WrongPath
14 bob unlock 0 via carol,alice: WrongPath
15 bob unlock 0 via carol,alice: WrongPath
16 bob unlock 0 via carol,alice: WrongPath
17 bob unlock 0 via carol,alice: WrongPath
18 bob unlock 0 via carol,alice: WrongPath
19 bob unlock 0 via carol,alice: WrongPath
20 bob unlock 0 via carol,alice: WrongPath
21 bob unlock 0 via carol,alice: WrongPath
22 bob unlock 0 via carol,alice: WrongPath
23 bob unlock 0 via carol,alice: WrongPath
24 bob unlock 0 via carol,alice: WrongPath
25 bob unlock 0 via carol,alice: WrongPath
26 bob unlock 0 via carol,alice: WrongPath
27 bob unlock 0 via carol,alice: WrongPath
28 bob unlock 0 via carol,alice: WrongPath
29 bob unlock 0 via carol,alice: WrongPath
30 bob unlock 0 via carol,alice: WrongPath
31 bob unlock 0 via carol,alice: WrongPath
32 bob unlock 0 via carol,alice: WrongPath
33 bob unlock 0 via carol,alice: WrongPath
34 bob unlock 0 via carol,alice: WrongPath
35 bob unlock 0 via carol,alice: WrongPath
61 alice refund: accepted
end height 71 alice 100 bob 0 held 0
ledger 1 bob -> carol amount 5
0 bob publish correct: accepted
1 carol unlock 0 via carol,alice: accepted
1 carol claim: accepted
end height 71 bob 0 carol 5 held 0
ledger 2 carol -> alice amount 1
0 carol publish correct: accepted
1 alice unlock 0 via alice: accepted
1 alice claim: accepted
end height 71 carol 0 alice 1 held 0
party alice conforming: FreeRide
party bob deviator: Underwater
party carol conforming: Deal
findings 0
"#;

/// With timelocks the secret is all of a hashkey, and opens every contract: bob presents it and
/// claims nothing.
const OF_BOB_WITH_TIMELOCKS: &str =
    r#""bob", => "bob","actor":{"strategy":"attacker"}, && {"swap":1, => {"finish":"fair","swap":1,
done
swap report 1
swap timelocks start 10 delta 10 bound 2
ledger 0 alice -> bob amount 100
0 alice publish correct: accepted
4 bob unlock 0: accepted
5 bob unlock 0: AlreadyUnlocked
6 bob unlock 0: AlreadyUnlocked
7 bob unlock 0: AlreadyUnlocked
8 bob unlock 0: AlreadyUnlocked
9 bob unlock 0: AlreadyUnlocked
10 bob unlock 0: AlreadyUnlocked
11 bob unlock 0: AlreadyUnlocked
12 bob unlock 0: AlreadyUnlocked
13 bob unlock 0: AlreadyUnlocked
14 bob unlock 0: AlreadyUnlocked
15 bob unlock 0: AlreadyUnlocked
16 bob unlock 0: AlreadyUnlocked
17 bob unlock 0: AlreadyUnlocked
18 bob unlock 0: AlreadyUnlocked
19 bob unlock 0: AlreadyUnlocked
20 bob unlock 0: AlreadyUnlocked
21 bob unlock 0: AlreadyUnlocked
22 bob unlock 0: AlreadyUnlocked
23 bob unlock 0: AlreadyUnlocked
24 bob unlock 0: AlreadyUnlocked
25 bob unlock 0: AlreadyUnlocked
26 bob unlock 0: AlreadyUnlocked
27 bob unlock 0: AlreadyUnlocked
28 bob unlock 0: AlreadyUnlocked
29 bob unlock 0: AlreadyUnlocked
30 bob unlock 0: AlreadyUnlocked
31 bob unlock 0: AlreadyUnlocked
32 bob unlock 0: AlreadyUnlocked
33 bob unlock 0: AlreadyUnlocked
34 bob unlock 0: AlreadyUnlocked
35 bob unlock 0: AlreadyUnlocked
end height 71 alice 0 bob 0 held 100
ledger 1 bob -> carol amount 5
0 bob publish correct: accepted
1 carol unlock 0: accepted
1 carol claim: accepted
end height 71 bob 0 carol 5 held 0
ledger 2 carol -> alice amount 1
0 carol publish correct: accepted
1 alice unlock 0: accepted
1 alice claim: accepted
end height 71 carol 0 alice 1 held 0
party alice conforming: Deal
party bob deviator: Underwater
party carol conforming: Deal
findings 0
"#;

/// C presents both hashkeys that opened its contract. In a race b may open its own by them in
/// either order, so that entries may differ.
const OF_TWO: &str = r#""c", => "c","actor":{"strategy":"attacker"},
done
swap report 1
swap hashkeys start 10 delta 10 bound 2
ledger 0 a -> b amount 1
0 a publish correct: accepted
0 b unlock 1 via b: accepted
1 b unlock 0 via b,a: accepted
1 b claim: accepted
end height 71 a 0 b 1 held 0
ledger 1 b -> a amount 1
0 b publish correct: accepted
1 a unlock 0 via a: accepted
1 a unlock 1 via a,b: accepted
1 a claim: accepted
end height 71 b 0 a 1 held 0
ledger 2 b -> c amount 1
0 b publish correct: accepted
4 c unlock 0 via a: WrongPath
5 c unlock 1 via a,b: WrongPath
6 c unlock 0 via a: WrongPath
7 c unlock 1 via a,b: WrongPath
8 c unlock 0 via a: WrongPath
9 c unlock 1 via a,b: WrongPath
10 c unlock 0 via a: WrongPath
11 c unlock 1 via a,b: WrongPath
12 c unlock 0 via a: WrongPath
13 c unlock 1 via a,b: WrongPath
14 c unlock 0 via a: WrongPath
15 c unlock 1 via a,b: WrongPath
16 c unlock 0 via a: WrongPath
17 c unlock 1 via a,b: WrongPath
18 c unlock 0 via a: WrongPath
19 c unlock 1 via a,b: WrongPath
20 c unlock 0 via a: WrongPath
21 c unlock 1 via a,b: WrongPath
22 c unlock 0 via a: WrongPath
23 c unlock 1 via a,b: WrongPath
24 c unlock 0 via a: WrongPath
25 c unlock 1 via a,b: WrongPath
26 c unlock 0 via a: WrongPath
27 c unlock 1 via a,b: WrongPath
28 c unlock 0 via a: WrongPath
29 c unlock 1 via a,b: WrongPath
30 c unlock 0 via a: WrongPath
31 c unlock 1 via a,b: WrongPath
32 c unlock 0 via a: WrongPath
33 c unlock 1 via a,b: WrongPath
34 c unlock 0 via a: WrongPath
35 c unlock 1 via a,b: WrongPath
61 b refund: accepted
end height 71 b 1 c 0 held 0
ledger 3 c -> a amount 1
0 c publish correct: accepted
1 a unlock 0 via a: accepted
1 a unlock 1 via a,b: accepted
1 a claim: accepted
end height 71 c 0 a 1 held 0
party a conforming: Deal
party b conforming: Discount
party c deviator: Underwater
findings 0
"#;

#[test]
fn every_known_hashkey_is_presented(rt: HostRuntime) -> Result<(), Fail> {
    attack(
        &rt,
        rt.alloc(),
        Attacker::Presenter,
        HASHKEYS,
        OF_CAROL,
        "done",
    )?;
    attack(
        &rt,
        rt.alloc(),
        Attacker::Presenter,
        HASHKEYS,
        OF_BOB,
        "done",
    )
}

#[test]
fn so_is_the_secret(rt: HostRuntime) -> Result<(), Fail> {
    attack(
        &rt,
        rt.alloc(),
        Attacker::Presenter,
        TIMELOCKS,
        OF_BOB_WITH_TIMELOCKS,
        "done",
    )
}

#[test]
fn so_are_hashkeys_of_two_leaders(rt: HostRuntime) -> Result<(), Fail> {
    attack(
        &rt,
        rt.alloc(),
        Attacker::Presenter,
        TWO_LEADERS,
        OF_TWO,
        "party a",
    )
}
