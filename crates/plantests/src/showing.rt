use crate::sheets::THREE_MOVES;
use plantext::Dot;
use std::test::Fail;

#[test]
fn as_a_picture(rt: HostRuntime) -> Result<(), Fail> {
    let record = planrecord::describe(THREE_MOVES)?;
    let text = format!(in rt.alloc(); "{}", Dot(&record))?;
    assert_eq!(rt;
        text.as_str(),
        "digraph plan {\n    p0 [shape=circle, label=\"place 0\\n6\"];\n    p1 [shape=circle, label=\"place 1\\n0\"];\n    t0 [shape=box, label=\"move 0\"];\n    t1 [shape=box, label=\"move 1\"];\n    t2 [shape=box, label=\"move 2\"];\n    p0 -> t0 [label=\"4\"];\n    t0 -> p1 [label=\"2\"];\n    p0 -> t1 [label=\"6\"];\n    t1 -> p1 [label=\"3\"];\n    t2 -> p0 [label=\"2\"];\n    p1 -> t2 [label=\"1\"];\n}\n"
    );
    Ok(())
}

#[test]
fn a_refusal_is_one_line(rt: HostRuntime) -> Result<(), Fail> {
    let refusal = planrecord::describe(&[])
        .err()
        .ok_or_else(|| Fail::new("not refused"))?;
    let text = format!(in rt.alloc(); "{refusal}")?;
    assert_eq!(rt; text.as_str(), "no 1 0 0");
    Ok(())
}
