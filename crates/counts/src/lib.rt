// The counts of a problem at a size: how many clauses and literals would be written if none were dropped. The constant clauses count where they are used.
#![tactic(auto)]

ghost use Rattle.std.specs.Prelude.{◌≡◌, cond, List, [], ◌∷◌, map, ℕ, ◌+◌, ◌-◌, ◌*◌, ◌/◌, ◌^◌, ◌≤◌, ◌<◌, get_or};
ghost use Rattle.theory.specs.PropClauses.{clause_part, function_part, function_places};
ghost use Rattle.symmetry.specs.ConstantClauses.{constant_parts, instance_count_with, literal_count_with};
ghost use Rattle.syntax.specs.Signatures.{max_in_all, signature_in};
ghost use Rattle.clauses.specs.Names.{Limited};
ghost use Rattle.problem.specs.Problems.{Accepted, problem_in};
ghost use Rattle.counts.specs.Totals.{ConstantsTotal, TotalOf, clauses_of, literals_of};

use flattening::flat::flatten;
use interpretation::vector::power;
use problem::clause_lines::clause_words;
use std::ops::Add;
use syntax::limits::Problem;
use syntax::signature::{Signature, Symbol};
use syntax::size::DomainSize;
use twins::constants::constant_count;

// I and L.
#[derive(Default, Drop)]
pub struct Counts {
    pub instances: usize,
    pub literals: usize,
}

impl Counts {
    // the most instances that are written or searched
    pub const MAX_INSTANCES: usize = 1000000;
}

// The counts of two parts together, which have to fit.
impl Add for Counts {
    type Output = Counts;

    ghost can_add = { λ a b. (a.instances + b.instances < 2 ^ 64) × (a.literals + b.literals < 2 ^ 64) };

    ghost add_gives = { λ a b r. (r.instances ≡ a.instances + b.instances) × (r.literals ≡ a.literals + b.literals) };

    fn add(self, other: Counts) -> Counts {
        Counts {
            instances: self.instances + other.instances,
            literals: self.literals + other.literals,
        }
    }
}

pub fn counts_at(sheet: &[u8], p: Problem, size: DomainSize) -> Counts
    requires { Accepted sheet.now p × (1 ≤ size.0) × (size.0 ≤ 8) }
    ensures instances { result.instances ≡ instance_count_with p.symmetry size.0 (problem_in sheet.now p).symbols (problem_in sheet.now p).clauses }
    ensures literals { result.literals ≡ literal_count_with p.symmetry size.0 (problem_in sheet.now p).symbols (problem_in sheet.now p).clauses }
    ensures small { (result.instances < 2 ^ 42) × (result.literals < 2 ^ 42) }
{
    let f = function_counts(p.signature, size);
    let t = twin_counts(p, size);
    let c = all_clause_counts(sheet, p, size);
    f + (t + c)
}

// What the function cells add.
fn function_counts(signature: Signature, size: DomainSize) -> Counts
    requires { Limited signature × (size.0 ≤ 8) }
    ensures { (sheet : List ℕ) → TotalOf (map (function_part size.0 (signature_in sheet signature)) (function_places (signature_in sheet signature))) (2 ^ 30) result }
{
    let mut total = Counts::default();
    for i in 0..signature.count {
        let one = symbol_counts(signature.symbols[i], size);
        total = total + one;
    }
    total
}

// What the cells of a symbol add, if it is a function.
fn symbol_counts(symbol: Symbol, size: DomainSize) -> Counts
    requires { (symbol.arity ≤ 3) × (size.0 ≤ 8) }
    ensures instances { result.instances ≡ cond symbol.function (size.0 ^ symbol.arity * (1 + size.0 * (size.0 - 1) / 2)) 0 }
    ensures literals { result.literals ≡ cond symbol.function (size.0 ^ (symbol.arity + 2)) 0 }
    ensures small { (result.instances ≤ 2 ^ 15) × (result.literals ≤ 2 ^ 15) }
{
    if !symbol.function {
        return Counts::default();
    }
    let arity = symbol.arity as usize;
    let s = size.0;
    let pairs = (s * s - s) / 2;
    let instances = power(s, arity) * (1 + pairs);
    Counts {
        instances,
        literals: power(s, arity + 2),
    }
}

// What the constant clauses add, where they are used.
fn twin_counts(p: Problem, size: DomainSize) -> Counts
    requires { Limited p.signature × (1 ≤ size.0) × (size.0 ≤ 8) }
    ensures { (sheet : List ℕ) → TotalOf (cond p.symmetry (constant_parts size.0 (signature_in sheet p.signature)) []) (2 ^ 15) result }
{
    if !p.symmetry {
        return Counts::default();
    }
    let n = constant_count(p.signature);
    all_constant_counts(n, size)
}

// What those of the first n constants add.
fn all_constant_counts(n: usize, size: DomainSize) -> Counts
    requires { (n ≤ max_in_all) × (1 ≤ size.0) × (size.0 ≤ 8) }
    ensures { ConstantsTotal size.0 n result }
{
    let mut total = Counts::default();
    for i in 0..n {
        let one = constant_counts(i + 1, size);
        total = total + one;
    }
    total
}

// What those of the i-th constant, counted from 1, add.
fn constant_counts(i: usize, size: DomainSize) -> Counts
    requires { (1 ≤ i) × (i ≤ max_in_all) × (1 ≤ size.0) × (size.0 ≤ 8) }
    ensures instances { result.instances ≡ clauses_of size.0 i }
    ensures literals { result.literals ≡ literals_of size.0 i }
    ensures small { (result.instances ≤ 2 ^ 9) × (result.literals ≤ 2 ^ 9) }
{
    let most = i.min(size.0);
    Counts {
        instances: most,
        literals: most + (most - 1) * i,
    }
}

// What the instances of all clauses add.
fn all_clause_counts(sheet: &[u8], p: Problem, size: DomainSize) -> Counts
    requires { Accepted sheet.now p × (size.0 ≤ 8) }
    ensures { TotalOf (map (clause_part size.0 (signature_in sheet.now p.signature)) (problem_in sheet.now p).clauses) (3 * 2 ^ 40 - 1) result }
{
    let mut total = Counts::default();
    for k in 0..p.count {
        let one = clause_counts(sheet, p, k, size);
        total = total + one;
    }
    total
}

// What the instances of clause k add.
fn clause_counts(sheet: &[u8], p: Problem, k: usize, size: DomainSize) -> Counts
    requires { Accepted sheet.now p × (k < p.count) × (size.0 ≤ 8) }
    ensures { TotalOf (clause_part size.0 (signature_in sheet.now p.signature) (get_or (problem_in sheet.now p).clauses k []) ∷ []) (26 * 2 ^ 30) result }
{
    let words = clause_words(sheet, p, k);
    let signature = p.signature;
    let arities = signature.arities();
    let flat = flatten(words, &arities);
    let instances = power(size.0, flat.variables);
    Counts {
        instances,
        literals: instances * flat.count,
    }
}
