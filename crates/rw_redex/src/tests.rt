//! Values of sets where memory is ample. The rule keeps its one vertex, which has a number, and makes another.

ghost use Rattle.std.specs.Prelude.{◌≡◌, [], ◌∷◌, IfOk, length, pos};
ghost use Rattle.rw_schema.specs.declared.atom.Atom.TheVariants as atoms;
ghost use Rattle.rw_schema.specs.declared.atom.Kind.TheVariants.{Int};
ghost use Rattle.rw_schema.specs.Presentation.{signature_of};
ghost use Rattle.rw_pattern.specs.PatternFaults.{IsPatternOver};
ghost use Rattle.rw_rule.specs.RuleFaults.{IsGoalOver, IsRuleOver};
ghost use Rattle.rw_rule.specs.RuleParts.{goal_of_parts};
ghost use Rattle.rw_terms.specs.OpEntries.{entries};
ghost use Rattle.rw_terms.specs.declared.term.Term.TheVariants.{Const, Var};

use crate::{first_too_large, first_without_value, set_values};
use rw_pattern::{Pattern, PatternCell, PatternParts, Want};
use rw_rule::{Goal, Refusal, Rule, RuleKind, RuleParts, SetCell};
use rw_schema::{Atom, AttrDef, AttrId, Kind, ObjectId, PartMap, Schema, SchemaParts, Text};
use rw_terms::{OpTable, Term, Valuation};
use std::alloc::Global;
use std::test::Fail;

// Vertices with a number each.
fn schema(alloc: Global) -> Result<Schema, Fail>
    ensures objects { IfOk result (λ schema. length schema.objects ≡ 1) }
    ensures attributes { IfOk result (λ schema. length schema.attributes ≡ 1) }
{
    let number = AttrDef {
        name: Text::of(alloc, "n")?,
        object: ObjectId(0),
        kind: Kind::Int,
    };
    let parts = SchemaParts {
        objects: vec![in alloc; Text::of(alloc, "V")?]?,
        arrows: Vec::new(alloc),
        attributes: vec![in alloc; number]?,
        equations: Vec::new(alloc),
    };
    Ok(Schema::build(alloc, parts)?)
}

// One vertex, for whose number the variable stands.
fn left(alloc: Global, schema: &Schema) -> Result<Pattern, Fail>
    requires { length schema.now.attributes ≡ 1 }
    ensures { IfOk result (IsPatternOver (signature_of schema.now) (Int ∷ [])) }
{
    let entry = PatternCell {
        attr: AttrId(0),
        part: 0,
        want: Want::Var(0),
    };
    let parts = PatternParts {
        sizes: vec![in alloc; 1]?,
        rows: Vec::new(alloc),
        cells: vec![in alloc; entry]?,
    };
    Ok(Pattern::build(alloc, schema, parts, &[Kind::Int])?)
}

// So many vertices, with any numbers.
fn vertices(alloc: Global, schema: &Schema, count: u32) -> Result<Pattern, Fail>
    ensures over { IfOk result (IsPatternOver (signature_of schema.now) []) }
    ensures free { IfOk result (λ pattern. pattern.cells ≡ []) }
{
    let parts = PatternParts {
        sizes: vec![in alloc; count]?,
        rows: Vec::new(alloc),
        cells: Vec::new(alloc),
    };
    Ok(Pattern::build(alloc, schema, parts, &[])?)
}

// The left side as what is looked for.
fn goal(alloc: Global, schema: &Schema) -> Result<Goal, Fail>
    requires objects { length schema.now.objects ≡ 1 }
    requires attributes { length schema.now.attributes ≡ 1 }
    ensures { IfOk result (λ goal. IsGoalOver (signature_of schema.now) (goal_of_parts goal)) }
{
    Ok(Goal {
        left: left(alloc, schema)?,
        monic: vec![in alloc; false]?,
        conditions: Vec::new(alloc),
        kinds: vec![in alloc; Kind::Int]?,
    })
}

// The map of the one kept vertex to the first.
fn first(alloc: Global) -> Result<PartMap, Fail> {
    let images = vec![in alloc; 0]?;
    Ok(PartMap::from_lists(vec![in alloc; images]?))
}

// A set of the number of a vertex.
fn set(part: u32, term: Term) -> SetCell
    ensures { result ≡ record { attr = record { 0 = 0 }; part = part; term = term } }
{
    SetCell {
        attr: AttrId(0),
        part,
        term,
    }
}

// The kept vertex gets the number that it has, and the new one gets 7.
fn sets(alloc: Global) -> Result<Vec<SetCell>, Fail>
    ensures { IfOk result (λ sets. sets.items ≡ record { attr = record { 0 = 0 }; part = 0; term = Var 0 }
        ∷ record { attr = record { 0 = 0 }; part = 1; term = Const (atoms.Int (pos 7)) } ∷ []) }
{
    let seven = Term::Const(Atom::Int(7));
    Ok(vec![in alloc; set(0, Term::Var(0)), set(1, seven)]?)
}

// What is kept, and what stands there afterwards.
#[derive(Drop)]
struct Sides {
    keep: Pattern,
    right: Pattern,
}

// One vertex is kept, and two stand there afterwards.
fn both_sides(alloc: Global, schema: &Schema) -> Result<Sides, Fail>
    ensures keep { IfOk result (λ sides. IsPatternOver (signature_of schema.now) [] sides.keep) }
    ensures right { IfOk result (λ sides. IsPatternOver (signature_of schema.now) [] sides.right) }
    ensures keep_free { IfOk result (λ sides. sides.keep.cells ≡ []) }
    ensures right_free { IfOk result (λ sides. sides.right.cells ≡ []) }
{
    let keep = vertices(alloc, schema, 1)?;
    let right = vertices(alloc, schema, 2)?;
    Ok(Sides { keep, right })
}

// What a rule has beside its patterns.
#[derive(Drop)]
struct Written {
    name: Text,
    sets: Vec<SetCell>,
    l: PartMap,
    r: PartMap,
}

// The rule's name, its sets, and the maps of the kept vertex.
fn written_parts(alloc: Global) -> Result<Written, Fail>
    ensures { IfOk result (λ written. written.sets.items ≡ record { attr = record { 0 = 0 }; part = 0; term = Var 0 }
        ∷ record { attr = record { 0 = 0 }; part = 1; term = Const (atoms.Int (pos 7)) } ∷ []) }
{
    Ok(Written {
        name: Text::of(alloc, "r")?,
        sets: sets(alloc)?,
        l: first(alloc)?,
        r: first(alloc)?,
    })
}

// The rule of what is looked for, both sides, and the rest.
fn rule_of(
    alloc: Global,
    schema: &Schema,
    ops: &OpTable,
    goal: Goal,
    sides: Sides,
    written: Written,
) -> Result<Rule, Fail>
    requires attributes { length schema.now.attributes ≡ 1 }
    requires goal { IsGoalOver (signature_of schema.now) (goal_of_parts goal) }
    requires keep { IsPatternOver (signature_of schema.now) [] sides.keep }
    requires right { IsPatternOver (signature_of schema.now) [] sides.right }
    requires keep_free { sides.keep.cells ≡ [] }
    requires right_free { sides.right.cells ≡ [] }
    requires sets { written.sets.items ≡ record { attr = record { 0 = 0 }; part = 0; term = Var 0 }
        ∷ record { attr = record { 0 = 0 }; part = 1; term = Const (atoms.Int (pos 7)) } ∷ [] }
    ensures over { IfOk result (IsRuleOver (signature_of schema.now) (length (entries ops.now))) }
    ensures sets { IfOk result (λ rule. rule.sets ≡ record { attr = record { 0 = 0 }; part = 0; term = Var 0 }
        ∷ record { attr = record { 0 = 0 }; part = 1; term = Const (atoms.Int (pos 7)) } ∷ []) }
{
    let Sides { keep, right } = sides;
    let Written { name, sets, l, r } = written;
    let parts = RuleParts {
        name,
        kind: RuleKind::Dpo,
        goal,
        keep,
        right,
        sets,
        l,
        r,
    };
    Ok(Rule::build(alloc, schema, parts, ops)?)
}

// The rule.
fn rule(alloc: Global, schema: &Schema, ops: &OpTable) -> Result<Rule, Fail>
    requires objects { length schema.now.objects ≡ 1 }
    requires attributes { length schema.now.attributes ≡ 1 }
    ensures over { IfOk result (IsRuleOver (signature_of schema.now) (length (entries ops.now))) }
    ensures sets { IfOk result (λ rule. rule.sets ≡ record { attr = record { 0 = 0 }; part = 0; term = Var 0 }
        ∷ record { attr = record { 0 = 0 }; part = 1; term = Const (atoms.Int (pos 7)) } ∷ []) }
{
    let goal = goal(alloc, schema)?;
    let sides = both_sides(alloc, schema)?;
    let written = written_parts(alloc)?;
    rule_of(alloc, schema, ops, goal, sides, written)
}

// Whether the values of the rule's sets are 3 and 7 where the variable has the value 3.
fn are_three_and_seven(alloc: Global, rule: &Rule, ops: &OpTable) -> Result<bool, Fail>
    requires { rule.now.sets ≡ record { attr = record { 0 = 0 }; part = 0; term = Var 0 }
        ∷ record { attr = record { 0 = 0 }; part = 1; term = Const (atoms.Int (pos 7)) } ∷ [] }
{
    let valuation = Valuation::of(vec![in alloc; Atom::Int(3)]?);
    let values = set_values(alloc, rule, &valuation, ops)?;
    Ok(values.as_slice() == [Some(Atom::Int(3)), Some(Atom::Int(7))].as_slice())
}

#[test]
fn each_set_has_the_value_of_its_term(rt: HostRuntime) -> Result<(), Fail> {
    let ops = OpTable::new(rt.alloc());
    let schema = schema(rt.alloc())?;
    let rule = rule(rt.alloc(), &schema, &ops)?;
    assert!(rt; are_three_and_seven(rt.alloc(), &rule, &ops)?);
    Ok(())
}

#[test]
fn the_first_set_without_a_value_is_named(rt: HostRuntime) -> Result<(), Fail> {
    let ops = OpTable::new(rt.alloc());
    let schema = schema(rt.alloc())?;
    let rule = rule(rt.alloc(), &schema, &ops)?;
    let lacking = first_without_value(&schema, &rule, &[Some(Atom::Int(3)), None]);
    assert!(rt;
        matches!(
            lacking,
            Some(Refusal::NoValue {
                right_part: 1,
                attr: AttrId(0)
            })
        )
    );
    let whole = first_without_value(&schema, &rule, &[Some(Atom::Int(3)), Some(Atom::Int(7))]);
    assert!(rt; whole.is_none());
    Ok(())
}

#[test]
fn one_new_name_may_be_one_too_many(rt: HostRuntime) -> Result<(), Fail> {
    let ops = OpTable::new(rt.alloc());
    let schema = schema(rt.alloc())?;
    let rule = rule(rt.alloc(), &schema, &ops)?;
    assert!(rt; first_too_large(&schema, &rule, &[16_777_215]).is_none());
    let full = first_too_large(&schema, &rule, &[16_777_216]);
    assert!(rt;
        matches!(
            full,
            Some(Refusal::TooLarge {
                object: ObjectId(0)
            })
        )
    );
    Ok(())
}
