//! The obstructions that no command meets yet: no contract says how text is laid out.

ghost use Rattle.std.specs.Prelude.{◌≡◌, IfOk, length};
ghost use Rattle.rw_print.specs.Lines.{IsKnown};

use super::*;
use rw_lists::ListsNews;
use rw_pattern::Tuple;
use rw_rule::Refusal;
use rw_schema::{Atom, AttrDef, AttrId, Kind, ObjectId, Schema, SchemaParts, Text};
use std::alloc::Global;
use std::test::Fail;

// One object, with a label for each part.
fn labels(alloc: Global) -> Result<Schema, Fail>
    ensures objects { IfOk result (λ schema. length schema.objects ≡ 1) }
    ensures attributes { IfOk result (λ schema. length schema.attributes ≡ 1) }
{
    let label = AttrDef {
        name: Text::of(alloc, "label")?,
        object: ObjectId(0),
        kind: Kind::Text,
    };
    let parts = SchemaParts {
        objects: vec![in alloc; Text::of(alloc, "V")?]?,
        arrows: Vec::new(alloc),
        attributes: vec![in alloc; label]?,
        equations: Vec::new(alloc),
    };
    Ok(Schema::build(alloc, parts)?)
}

// The line of a firing that refused the match [2].
fn refused_line(alloc: Global, schema: &Schema, refusal: Refusal) -> Result<Vec<u8>, Fail>
    requires { IsKnown schema.now refusal }
{
    let refused = vec![in alloc; (Tuple::of(alloc, &[2])?, refusal)]?;
    let news = ListsNews {
        lists: Vec::new(alloc),
    };
    let rule = Text::of(alloc, "r")?;
    Ok(step_line(alloc, schema, 0, &rule, None, &news, &refused)?)
}

#[test]
fn an_identification_is_printed(rt: HostRuntime) -> Result<(), Fail> {
    let schema = labels(rt.alloc())?;
    let refusal = Refusal::Identification {
        object: ObjectId(0),
        first: 0,
        second: 1,
    };
    let line = refused_line(rt.alloc(), &schema, refusal)?;
    let text =
        "{\"box\":0,\"lists\":[],\"match\":null,\"refused\":[[[2],[\"identification\",\"V\",0,1]]],\"rule\":\"r\"}\n";
    assert!(rt; line.as_slice() == text.as_bytes());
    Ok(())
}

#[test]
fn a_clash_is_printed(rt: HostRuntime) -> Result<(), Fail> {
    let schema = labels(rt.alloc())?;
    let refusal = Refusal::Clash {
        object: ObjectId(0),
        name: 3,
        attr: AttrId(0),
        first: Atom::Int(-7),
        second: Atom::Bool(true),
    };
    let line = refused_line(rt.alloc(), &schema, refusal)?;
    let text =
        "{\"box\":0,\"lists\":[],\"match\":null,\"refused\":[[[2],[\"clash\",\"V\",3,\"label\",-7,true]]],\"rule\":\"r\"}\n";
    assert!(rt; line.as_slice() == text.as_bytes());
    Ok(())
}
