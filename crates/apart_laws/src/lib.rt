//! Swaps that share no hashlock don't interfere: what a party that keeps its conduct presents in
//! one of them opens nothing in another, and nothing that is forged there comes from it.
//!
//! Read `specs/Apart.antt`: it has the words and the laws.
#![tactic(auto)]

ghost use Rattle.apart_laws.specs.Apart.{BooksStayApart, SwapsStayApart};

/// What a conducted party presents in one swap carries no secret of another swap that shares no
/// hashlock with it. So no hashkey that opens a lock of the other swap, on an arc with the terms of
/// the deal, has a part that the party made in the first: of any two books, and of any two swaps on
/// shared chains.
pub fn swaps_stay_apart()
    ensures books { BooksStayApart }
    ensures runs { SwapsStayApart }
{}
