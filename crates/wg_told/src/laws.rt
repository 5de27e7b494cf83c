//! The laws of what is told, as the contracts of functions that do nothing.
ghost use Rattle.wg_told.specs.Laws.{FitsAsMany, ItemsToldApart, ListsToldApart, RepliesToldApart, SettlementsToldApart};

/// Two items that are told alike, with their uses and accesses, are the same.
pub fn items_told_apart()
    ensures { ItemsToldApart }
{}

/// Two lists of items that are told alike, item after item, with all their uses and all their accesses, are the same.
pub fn lists_told_apart()
    ensures { ListsToldApart }
{}

/// Two settlements that are told alike are the same.
pub fn settlements_told_apart()
    ensures { SettlementsToldApart }
{}

/// Two replies that are told alike, with what they settle, are the same, of the same entry.
pub fn replies_told_apart()
    ensures { RepliesToldApart }
{}

/// What is told of many items at once is as many of the first as there is room for, with their uses and accesses: for
/// one more there is none.
pub fn as_many_fit()
    ensures { FitsAsMany }
{}
