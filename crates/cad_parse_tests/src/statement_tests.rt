// Texts with the statements that they begin with.
use crate::statement_rows::{APART, NESTED, SIMPLE};
use crate::telling::{Part, differences, shown, tokens, told_statements};
use cad_parse_statement::block;
use cad_parse_type::Spot;

#[test]
fn statements_are_read(rt: HostRuntime) {
    for rows in [APART, SIMPLE, NESTED] {
        assert_eq!(rt;
            differences(rt.alloc(), Part::Statements, rows)
                .expect(&rt, "memory")
                .as_str(),
            ""
        );
    }
}

#[test]
fn nestings_of_statements(rt: HostRuntime) {
    for (left, text, is_read) in [
        (1, "if a { } }", true),
        (0, "if a { } }", false),
        (2, "if a { } else if b { } }", true),
        (1, "if a { } else if b { } }", false),
        (
            2,
            "if a { } else if b { } \n if c { } else { while d { } } }",
            true,
        ),
        (1, "if c { } else { while d { } } }", false),
    ] {
        let found = told_statements(rt.alloc(), left, text).expect(&rt, "memory");
        assert_eq!(rt; found.as_str() != "none", is_read, "at {text}");
    }
}

#[test]
fn blocks_are_read(rt: HostRuntime) {
    let alloc = rt.alloc();
    let all = tokens(alloc, "{ break ; } }").expect(&rt, "memory");
    let spot = Spot {
        left: 1,
        after_name: true,
        tokens: all.as_slice(),
    };
    let read = block(alloc, spot).expect(&rt, "memory");
    let (found, rest) = read.expect(&rt, "a block");
    let text = format!(in alloc; "{found:?} {}", rest.tokens.len()).expect(&rt, "memory");
    assert_eq!(rt;
        shown(alloc, text.as_str(), "")
            .expect(&rt, "memory")
            .as_str(),
        "[Break] 1"
    );
    assert_eq!(rt; rest.left, 1);
    assert!(rt; !rest.after_name);
}
