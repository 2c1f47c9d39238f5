// Texts with the expressions and types that they begin with.
use crate::expression_rows::EXPRESSIONS;
use crate::telling::{Part, differences, shown, tokens, told_expression};
use cad_grammar::ParseStop;
use cad_parse_expr::{Cursor, MAX_NESTING, parse_type};

#[test]
fn expressions_are_read(rt: HostRuntime) {
    assert_eq!(rt;
        differences(rt.alloc(), Part::Expression, EXPRESSIONS)
            .expect(&rt, "memory")
            .as_str(),
        ""
    );
}

#[test]
fn nestings_are_counted(rt: HostRuntime) {
    let alloc = rt.alloc();
    let mut text = String::new(alloc);
    for _ in 0..MAX_NESTING {
        text.push('!').expect(&rt, "memory");
    }
    text.push('a').expect(&rt, "memory");
    assert!(rt;
        told_expression(alloc, 0, text.as_str())
            .expect(&rt, "memory")
            .as_str()
            != "none 0"
    );
    assert_eq!(rt;
        told_expression(alloc, 1, text.as_str())
            .expect(&rt, "memory")
            .as_str(),
        "none 0"
    );
    assert_eq!(rt;
        told_expression(alloc, 127, "[a]")
            .expect(&rt, "memory")
            .as_str(),
        "Array([Name('a')]) 0"
    );
    assert_eq!(rt;
        told_expression(alloc, 127, "[-a]")
            .expect(&rt, "memory")
            .as_str(),
        "none 0"
    );
    assert_eq!(rt;
        told_expression(alloc, 127, "[a] + b")
            .expect(&rt, "memory")
            .as_str(),
        "Binary(Add, Array([Name('a')]), Name('b')) 0"
    );
    assert_eq!(rt;
        told_expression(alloc, 127, "a[b] + c")
            .expect(&rt, "memory")
            .as_str(),
        "Index(Name('a'), Name('b')) 2"
    );
}

#[test]
fn types_are_read(rt: HostRuntime) {
    let alloc = rt.alloc();
    let all = tokens(alloc, "[T]? a").expect(&rt, "memory");
    let mut cursor = Cursor {
        tokens: all.as_slice(),
        at: 0,
    };
    match parse_type(alloc, &mut cursor, 0) {
        Ok(t) => {
            let text = format!(in alloc; "{t:?} {}", cursor.at);
            drop(t);
            let text = text.expect(&rt, "memory");
            assert_eq!(rt;
                shown(alloc, text.as_str(), "'")
                    .expect(&rt, "memory")
                    .as_str(),
                "Optional(Array(Type['T'])) 4"
            );
        }
        Err(_) => assert!(rt; false),
    }
    cursor.at = cursor.tokens.len();
    match parse_type(alloc, &mut cursor, 0) {
        Ok(t) => {
            drop(t);
            assert!(rt; false);
        }
        Err(ParseStop::At { at, .. }) => assert_eq!(rt; at, 6),
        Err(ParseStop::Memory) => assert!(rt; false),
    }
}
