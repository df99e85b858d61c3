// Any call, by its value.
#![tactic(auto)]

pub mod dispatch;

// A call as a value, with its numbers, a caller's among them. The page that Land is lent stands beside it, and so do the lists of
// LookUpList, its blocks and the words for the answer, and the blocks of OfferList. View, which hands a page back and changes nothing, is not among them.
#[derive(Clone, Copy)]
pub enum Request {
    Format(u32, u32),
    Step,
    Offer(layout::Block, u32),
    Land(layout::Block),
    Fetch(layout::Block, u32),
    LandFetch(layout::Block),
    LookUp(layout::Block),
    LookUpList,
    OfferList(u32),
    WriteBack(layout::Block),
    Flush,
    Reopen,
}
