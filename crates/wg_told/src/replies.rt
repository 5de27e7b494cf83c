//! Replies and settlements, as they are told.
ghost use Rattle.std.specs.Prelude.{◌≡◌};
ghost use Rattle.wg_told.specs.Replies.{flag_number, answer_number, number_told, valid_number, fault_kind_number, fault_number, rule_number, caught_number, scope_number, how_number, how_fault, how_rule, reply_told, settlement_told};

use wg_types::replies::{Answer, Caught, Fault, FaultKind, How, Reply, Settlement};

/// The reply to a call. What its answer does not need is 0.
#[repr(C)]
#[derive(Clone, Copy, PartialEq, Eq, Debug)]
pub struct ToldReply {
    pub entry: u64,
    pub number: u64,
    pub scope: u64,
    pub settles: u64,
    pub answer: u32,
    pub valid: u32,
    pub fault: u32,
    pub rule: u32,
    pub caught: u32,
}

/// A promise that was settled.
#[repr(C)]
#[derive(Clone, Copy, PartialEq, Eq, Debug)]
pub struct ToldSettlement {
    pub promise: u64,
    pub how: u32,
    pub fault: u32,
    pub rule: u32,
}

fn flag_number(flag: bool) -> u32
    ensures { result ≡ flag_number flag }
{
    if flag { 1 } else { 0 }
}

fn answer_number(answer: Answer) -> u32
    ensures { result ≡ answer_number answer }
{
    match answer {
        Answer::Made { .. } => 1,
        Answer::Queued(_) => 2,
        Answer::Promised => 3,
        Answer::Plain => 4,
        Answer::BadCompletion => 5,
    }
}

fn number_told(answer: Answer, entry: u64) -> u64
    ensures { result ≡ number_told answer entry }
{
    match answer {
        Answer::Made { number, .. } => number,
        Answer::Queued(number) => number,
        Answer::Promised => entry,
        Answer::Plain | Answer::BadCompletion => 0,
    }
}

fn valid_number(answer: Answer) -> u32
    ensures { result ≡ valid_number answer }
{
    match answer {
        Answer::Made { valid, .. } => flag_number(valid),
        Answer::Queued(_) | Answer::Promised | Answer::Plain | Answer::BadCompletion => 0,
    }
}

fn fault_kind_number(kind: FaultKind) -> u32
    ensures { result ≡ fault_kind_number kind }
{
    match kind {
        FaultKind::Validation => 1,
        FaultKind::OutOfMemory => 2,
    }
}

fn fault_number(fault: Option<Fault>) -> u32
    ensures { result ≡ fault_number fault }
{
    match fault {
        Some(fault) => fault_kind_number(fault.kind),
        None => 0,
    }
}

fn rule_number(fault: Option<Fault>) -> u32
    ensures { result ≡ rule_number fault }
{
    match fault {
        Some(fault) => u32::from(fault.rule),
        None => 0,
    }
}

fn caught_number(fault: Option<Fault>) -> u32
    ensures { result ≡ caught_number fault }
{
    match fault {
        Some(fault) => match fault.caught {
            Caught::Scope(_) => 1,
            Caught::Uncaptured => 0,
        },
        None => 0,
    }
}

fn scope_number(fault: Option<Fault>) -> u64
    ensures { result ≡ scope_number fault }
{
    match fault {
        Some(fault) => match fault.caught {
            Caught::Scope(place) => place,
            Caught::Uncaptured => 0,
        },
        None => 0,
    }
}

/// The reply to an event, which is the entry with this number.
pub fn reply_told(reply: &Reply, entry: u64) -> ToldReply
    ensures { result ≡ reply_told reply.now entry }
{
    ToldReply {
        entry,
        number: number_told(reply.answer, entry),
        scope: scope_number(reply.fault),
        settles: reply.settled.as_slice().len() as u64,
        answer: answer_number(reply.answer),
        valid: valid_number(reply.answer),
        fault: fault_number(reply.fault),
        rule: rule_number(reply.fault),
        caught: caught_number(reply.fault),
    }
}

fn how_number(how: How) -> u32
    ensures { result ≡ how_number how }
{
    match how {
        How::Mapped => 1,
        How::Done => 2,
        How::Aborted => 3,
        How::Rejected => 4,
        How::Null => 5,
        How::Error { .. } => 6,
    }
}

fn how_fault(how: How) -> u32
    ensures { result ≡ how_fault how }
{
    match how {
        How::Error { kind, .. } => fault_kind_number(kind),
        How::Mapped | How::Done | How::Aborted | How::Rejected | How::Null => 0,
    }
}

fn how_rule(how: How) -> u32
    ensures { result ≡ how_rule how }
{
    match how {
        How::Error { rule, .. } => u32::from(rule),
        How::Mapped | How::Done | How::Aborted | How::Rejected | How::Null => 0,
    }
}

/// A settlement.
pub fn settlement_told(settlement: Settlement) -> ToldSettlement
    ensures { result ≡ settlement_told settlement }
{
    ToldSettlement {
        promise: settlement.promise,
        how: how_number(settlement.how),
        fault: how_fault(settlement.how),
        rule: how_rule(settlement.how),
    }
}
