// Texts with the types that they begin with.
use crate::telling::{Part, differences, told_type};
use crate::type_rows::{BEHIND_AS, TYPES};
use cad_grammar::TypePosition;

#[test]
fn annotations_are_read(rt: HostRuntime) {
    let alloc = rt.alloc();
    assert_eq!(rt;
        differences(alloc, Part::Type, TYPES)
            .expect(&rt, "memory")
            .as_str(),
        ""
    );
    let (text, want) = BEHIND_AS;
    assert_eq!(rt;
        told_type(alloc, TypePosition::BehindAs, text)
            .expect(&rt, "memory")
            .as_str(),
        want
    );
}
