//! The rules of query sets, and the queries of a render pass.
#![tactic(auto)]

ghost use Rattle.std.specs.Prelude.{◌≡◌, ◌∷◌, ◌++◌, [], true, false, IfOk, OnOk, OnErr, MatchOption};
ghost use Rattle.wg_model.specs.Queries.{create_queries_rules, was_begun, begin_query_rules, end_query_rules};
ghost use Rattle.wg_model.specs.Rules.{first_unmet};

use std::alloc::Global;
use std::marker::Model;
use wg_rules::{
    NO_OCCLUSION_QUERY_IS_ACTIVE, OCCLUSION_QUERY_IS_ACTIVE, PASS_HAS_QUERY_SET,
    QUERY_COUNT_IS_WITHIN_LIMIT, QUERY_INDEX_IS_IN_SET, QUERY_IS_NOT_BEGUN_BEFORE,
};
use wg_types::NoMemory;
use wg_types::handles::QueriesInfo;
use wg_types::limits::Limits;

/// The first unmet rule of createQuerySet on a device of these limits (WebGPU, "QuerySet Creation"), of
/// those that what the set is made with tells.
pub fn check_create(info: &QueriesInfo, limits: &Limits) -> Option<u16>
    ensures { result ≡ first_unmet (create_queries_rules limits.now info.now) }
{
    if info.count > limits.max_queries_per_set {
        return Some(QUERY_COUNT_IS_WITHIN_LIMIT);
    }
    None
}

/// The queries of a render pass (WebGPU, "Queries"): the indexes of those that were begun, in order, and
/// whether one is active.
#[derive(Drop)]
pub struct Occlusion {
    begun: Vec<u32>,
    active: bool,
}

impl Model for Occlusion {
    ghost use Rattle.wg_model.specs.Queries.{Occlusion};

    ghost Value = { Occlusion };

    ghost view = { λ queries. record { begun = queries.begun.items; active = queries.active } };
}

impl Occlusion {
    /// No query was begun, and none is active. It takes no memory.
    pub fn new(alloc: Global) -> Occlusion
        ensures { result ≡ record { begun = []; active = false } }
    {
        Occlusion {
            begun: Vec::new(alloc),
            active: false,
        }
    }

    /// Whether a query is active.
    pub fn is_active(&self) -> bool
        ensures { result ≡ self.now.active }
    {
        self.active
    }

    /// Whether a query was begun before.
    fn was_begun(&self, index: u32) -> bool
        ensures { result ≡ was_begun self.now index }
    {
        self.begun.iter().any(|other| *other == index)
    }

    /// The first unmet rule of beginOcclusionQuery (WebGPU, "beginOcclusionQuery") in a pass whose query
    /// set has so many queries, if it has a set.
    pub fn check_begin(&self, count: Option<u32>, index: u32) -> Option<u16>
        ensures { result ≡ first_unmet (begin_query_rules count self.now index) }
    {
        let Some(count) = count else {
            return Some(PASS_HAS_QUERY_SET);
        };
        if index >= count {
            return Some(QUERY_INDEX_IS_IN_SET);
        }
        if self.active {
            return Some(NO_OCCLUSION_QUERY_IS_ACTIVE);
        }
        if self.was_begun(index) {
            return Some(QUERY_IS_NOT_BEGUN_BEFORE);
        }
        None
    }

    /// The first unmet rule of endOcclusionQuery (WebGPU, "endOcclusionQuery").
    pub fn check_end(&self) -> Option<u16>
        ensures { result ≡ first_unmet (end_query_rules self.now) }
    {
        if !self.active {
            return Some(OCCLUSION_QUERY_IS_ACTIVE);
        }
        None
    }

    /// Notes that a query is begun, whose rules are met.
    pub fn note_begun(&mut self, index: u32) -> Result<(), NoMemory>
        ensures begun { OnOk result (self.new ≡ record { begun = self.old.begun ++ index ∷ []; active = true }) }
        ensures unchanged { OnErr result (self.new ≡ self.old) }
    {
        self.begun.push(index)?;
        self.active = true;
        Ok(())
    }

    /// Notes that the active query ends.
    pub fn note_ended(&mut self)
        ensures { self.new ≡ record self.old { active = false } }
    {
        self.active = false;
    }

    /// Begins a query in a pass whose query set has so many queries, if it has a set (WebGPU,
    /// "beginOcclusionQuery"). It gives the first unmet rule, and then changes nothing.
    pub fn begin(&mut self, count: Option<u32>, index: u32) -> Result<Option<u16>, NoMemory>
        ensures rule { IfOk result (λ rule. rule ≡ first_unmet (begin_query_rules count self.old index)) }
        ensures after { IfOk result (λ rule. MatchOption rule (self.new ≡ record { begun = self.old.begun ++ index ∷ []; active = true }) (λ unmet. self.new ≡ self.old)) }
        ensures unchanged { OnErr result (self.new ≡ self.old) }
    {
        if let Some(rule) = self.check_begin(count, index) {
            return Ok(Some(rule));
        }
        self.note_begun(index)?;
        Ok(None)
    }

    /// Ends the active query (WebGPU, "endOcclusionQuery"). It gives the first unmet rule: that there is
    /// one.
    pub fn end(&mut self) -> Option<u16>
        ensures rule { result ≡ first_unmet (end_query_rules self.old) }
        ensures after { self.new ≡ record self.old { active = false } }
    {
        let unmet = self.check_end();
        self.note_ended();
        unmet
    }
}
