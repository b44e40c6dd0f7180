//! The first of the rules that are broken, in the order of the text.
ghost use Rattle.std.specs.Prelude.{◌≡◌, Some, None, option_map, IfOk};
ghost use Rattle.argos_grammar.specs.Views.{mark_of};
ghost use Rattle.argos_names.specs.Scope.{breach, breach_unless};
ghost use Rattle.argos_names.specs.Refusals.{rule_of, breach_in};
ghost use Rattle.argos_names.specs.inner.Least.{least_after};
ghost use Rattle.argos_names.specs.inner.FoundViews.{found_of};

use crate::errors::{NameFault, NameRule};
use argos_grammar::Spot;
use std::marker::Model;

/// A rule that is broken, and the name at which it is.
#[derive(Clone, Copy, Debug)]
pub struct Found {
    pub rule: NameRule,
    pub spot: Spot,
}

impl Found {
    /// The error that says so.
    pub fn fault(self) -> NameFault
        ensures { breach_in result ≡ Some (found_of self) }
    {
        let Spot { name, at } = self.spot;
        let rule = self.rule;
        NameFault::Broken { rule, name, at }
    }
}

/// Of the broken rules so far, the one at the least place, and of several there the first that was found.
#[derive(Debug, Drop)]
pub struct Least {
    found: Option<Found>,
}

impl Model for Least {
    ghost use Rattle.std.specs.Prelude.{Option, option_map};
    ghost use Rattle.argos_names.specs.Scope.{Breach};
    ghost use Rattle.argos_names.specs.inner.FoundViews.{found_of};

    ghost Value = { Option Breach };

    ghost view = { λ l. option_map found_of l.found };
}

impl Least {
    /// Where no rule is broken so far.
    pub fn new() -> Least
        ensures { result ≡ None }
    {
        Least { found: None }
    }

    /// What is found in the end.
    pub fn found(self) -> Option<Found>
        ensures { option_map found_of result ≡ self }
    {
        self.found
    }

    /// A rule is broken at this name.
    pub fn broken(&mut self, rule: NameRule, spot: &Spot)
        ensures { self.new ≡ least_after self.old (breach (rule_of rule) (mark_of spot.now)) }
    {
        let comes_first = match &self.found {
            Some(found) => spot.at < found.spot.at,
            None => true,
        };
        if comes_first {
            self.found = Some(Found { rule, spot: *spot });
        }
    }

    /// A rule is broken at this name, unless it is kept.
    pub fn broken_unless(&mut self, kept: bool, rule: NameRule, spot: &Spot)
        ensures { self.new ≡ least_after self.old (breach_unless kept (rule_of rule) (mark_of spot.now)) }
    {
        if !kept {
            self.broken(rule, spot);
        }
    }
}
