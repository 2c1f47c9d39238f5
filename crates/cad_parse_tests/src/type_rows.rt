// Texts, and the annotated type that each begins with where two nestings may be opened, with the number of tokens that are left
// and that of the nestings; or that none begins.
pub const TYPES: &str = r#"
A ? ⇒ TypeAnnotation { is_resource: false, written: Optional(Named { name: Items { items: [Name(Text { text: "A" })] }, arguments: [] }) } 0 1
A ?? ? ⇒ TypeAnnotation { is_resource: false, written: Optional(Optional(Named { name: Items { items: [Name(Text { text: "A" })] }, arguments: [] })) } 1 0
@ [ A ] ⇒ TypeAnnotation { is_resource: true, written: Array(Named { name: Items { items: [Name(Text { text: "A" })] }, arguments: [] }) } 0 2
{ A : ( A ) } , ⇒ TypeAnnotation { is_resource: false, written: Dictionary(Named { name: Items { items: [Name(Text { text: "A" })] }, arguments: [] }, Named { name: Items { items: [Name(Text { text: "A" })] }, arguments: [] }) } 1 2
& { A , A , } , ⇒ TypeAnnotation { is_resource: false, written: Reference { authorization: None, target: Intersection(Items { items: [Items { items: [Name(Text { text: "A" })] }, Items { items: [Name(Text { text: "A" })] }] }) } } 1 1
auth ( A | A ) & A ⇒ TypeAnnotation { is_resource: false, written: Reference { authorization: Some(Any(Items { items: [Items { items: [Name(Text { text: "A" })] }, Items { items: [Name(Text { text: "A" })] }] })), target: Named { name: Items { items: [Name(Text { text: "A" })] }, arguments: [] } } } 0 1
A < A , > . A ⇒ TypeAnnotation { is_resource: false, written: Named { name: Items { items: [Name(Text { text: "A" })] }, arguments: [TypeAnnotation { is_resource: false, written: Named { name: Items { items: [Name(Text { text: "A" })] }, arguments: [] } }] } } 2 2
& A < ⇒ none
[ [ [ A ] ] ] ⇒ none
"#;

// The same behind the `as` of a cast: a text, and what is told of it.
pub const BEHIND_AS: (&str, &str) = (
    "A ? [",
    r#"TypeAnnotation { is_resource: false, written: Named { name: Items { items: [Name(Text { text: "A" })] }, arguments: [] } } 2 2"#,
);
