//! Rules that are looked up by paths.

ghost use Rattle.std.specs.Prelude.{◌≡◌, ◌≤◌, ◌+◌, IfOk, drop, length, nat_eq, take};
ghost use Rattle.std.specs.List.{common_prefix_len};
ghost use Rattle.std.specs.Option.{option_copied};
ghost use Rattle.spec_tree_file.specs.Patterns.{matches};
ghost use Rattle.spec_tree_file.specs.Substitutions.{rule_of};
ghost use Rattle.tree_mock.specs.Patterns.{before_star};

use crate::patterns::{End, Grams, alike, end_of, follows, gram_of, marks_of, plain_len};
use base_texts::NoMemory;
use spec_tree_file::{Configuration, Rule, Rules};
use std::alloc::Global;
use std::marker::Model;

/// A rule, how many bytes its pattern has before its first star, how many of these the pattern before it begins with too,
/// before its own first star, what the pattern ends with, and the place of three bytes of it.
#[derive(Clone, Copy, Drop)]
struct Front<'r> {
    rule: &'r Rule,
    plain: usize,
    shared: usize,
    end: End,
    gram: Option<u16>,
}

impl<'r> Front<'r> {
    /// How many bytes the path and the pattern, before its first star, begin with alike, where `shared` ones are known.
    fn alike_with(&self, path: &[u8]) -> usize
        requires shared { self.now.shared ≤ self.now.plain }
        requires pattern { self.now.plain ≤ length self.now.rule.now.pattern }
        requires path { self.now.shared ≤ length path.now }
        ensures { result ≡ self.now.shared + common_prefix_len nat_eq
            (drop self.now.shared (take self.now.plain self.now.rule.now.pattern)) (drop self.now.shared path.now) }
    {
        if self.shared == self.plain {
            return self.shared;
        }
        let (beginning, _) = self.rule.pattern.list().split_at(self.plain);
        self.shared
            + alike(
                beginning.split_at(self.shared).1,
                path.split_at(self.shared).1,
            )
    }

    /// Whether the path goes on as the pattern does from its first star on.
    fn follows_in(&self, path: &[u8]) -> bool
        requires pattern { self.now.plain ≤ length self.now.rule.now.pattern }
        requires path { self.now.plain ≤ length path.now }
        requires star { before_star (drop self.now.plain self.now.rule.now.pattern) ≡ 0 }
        ensures { result ≡ matches (drop self.now.plain self.now.rule.now.pattern) (drop self.now.plain path.now) }
    {
        let (_, more) = self.rule.pattern.list().split_at(self.plain);
        follows(more, path.split_at(self.plain).1)
    }
}

/// Rules that are looked up by paths: contracts see the rules.
#[derive(Drop)]
pub struct Lookup<'r> {
    rules: &'r Rules,
    fronts: Vec<Front<'r>>,
}

impl<'r> Model for Lookup<'r> {
    ghost use Rattle.std.specs.Coded.{codes};
    ghost use Rattle.std.specs.Prelude.{[]};
    ghost use Rattle.spec_script.specs.contracts.syntax.Expr as expr;
    ghost use Rattle.spec_tree_file.specs.declared.mock_rules.Rules.{Rules};
    ghost use Rattle.tree_mock.specs.Lookup.{AreFronts};

    ghost Value = { Rules };

    ghost coded = { Prim.hlevel (codes, expr.the_row.coded) };

    ghost view = { λ lookup. lookup.rules.now };

    ghost invariant = { λ lookup. AreFronts [] lookup.rules.now.rules lookup.fronts.items };
}

impl<'r> Lookup<'r> {
    /// A look-up of these rules. The error is want of memory.
    pub fn of(alloc: Global, rules: &'r Rules) -> Result<Lookup<'r>, NoMemory>
        ensures { IfOk result (λ lookup. lookup ≡ rules.entry.now) }
    {
        let mut fronts = Vec::with_capacity(alloc, rules.rules.list().len())?;
        let mut before: &[u8] = &[];
        for rule in rules.rules.list() {
            let pattern = rule.pattern.list();
            let plain = plain_len(pattern);
            let (front, _) = pattern.split_at(plain);
            fronts.push(Front {
                rule,
                plain,
                shared: alike(before, front),
                end: end_of(pattern),
                gram: gram_of(pattern, plain),
            })?;
            before = front;
        }
        Ok(Lookup { rules, fronts })
    }

    /// The configurations.
    pub fn configurations(&self) -> &[Configuration]
        ensures { result.now ≡ self.now.configurations }
    {
        self.rules.configurations.list()
    }

    /// The first rule whose pattern matches the path. None where there is none. A pattern is passed over that goes on as
    /// the one before does where the path goes on otherwise: of patterns in their order by bytes few are left to be tried.
    /// Of these one is passed over whose end has another mark than that of the path, before any byte of it is read, and,
    /// once several were tried, one that has three bytes beside each other which stand nowhere in the path.
    pub fn rule_of(&self, path: &[u8]) -> Option<&Rule>
        ensures { option_copied result ≡ rule_of self.now.rules path.now }
    {
        let marks = marks_of(path);
        let mut grams = Grams::none();
        let mut known = 0;
        for front in self.fronts.as_slice() {
            if front.shared <= known {
                known = front.alike_with(path);
                if known == front.plain
                    && marks[usize::from(front.end.len)] == front.end.mark
                    && grams.may_have(path, front.gram)
                    && front.follows_in(path)
                {
                    return Some(front.rule);
                }
            }
        }
        None
    }
}
