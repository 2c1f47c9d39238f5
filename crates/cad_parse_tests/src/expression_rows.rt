// Texts, and the expression that each begins with, with the number of tokens that are left; or the place where none begins.
// `↵` stands for a line feed, a text or a name stands between `'`, and `Type['T']` is the type `T` without arguments.
pub const EXPRESSIONS: &str = r#"
a + b * c - d ⇒ Binary(Subtract, Binary(Add, Name('a'), Binary(Multiply, Name('b'), Name('c'))), Name('d')) 0
a ?? b ?? c ⇒ Binary(Coalesce, Name('a'), Binary(Coalesce, Name('b'), Name('c'))) 0
a ? b : c ? d : e ⇒ Conditional(Name('a'), Name('b'), Conditional(Name('c'), Name('d'), Name('e'))) 0
a || b && c == d ⇒ Binary(Or, Name('a'), Binary(And, Name('b'), Binary(Equal, Name('c'), Name('d')))) 0
a | b ^ c & d ⇒ Binary(BitOr, Name('a'), Binary(BitXor, Name('b'), Binary(BitAnd, Name('c'), Name('d')))) 0
a <= b != c ⇒ Binary(NotEqual, Binary(LessOrEqual, Name('a'), Name('b')), Name('c')) 0
a ? b + : c ⇒ Name('a') 5
-a.b ⇒ Unary(Negate, Member(Name('a'), 'b')) 0
<-f(a, b: c,) ⇒ Unary(Move, Call { function: Name('f'), type_arguments: [], arguments: [Argument { label: None, value: Name('a') }, Argument { label: Some('b'), value: Name('c') }] }) 0
&a as &T ⇒ Reference(Name('a'), Reference { authorization: None, target: Type['T'] }) 0
a as T ? b : c ⇒ Conditional(Cast(Static, Name('a'), TypeAnnotation { is_resource: false, written: Type['T'] }), Name('b'), Name('c')) 0
a as? @T? ⇒ Cast(Failable, Name('a'), TypeAnnotation { is_resource: true, written: Optional(Type['T']) }) 0
a as! T ?↵b ⇒ Cast(Forced, Name('a'), TypeAnnotation { is_resource: false, written: Optional(Type['T']) }) 1
a as [T].b ⇒ Cast(Static, Name('a'), TypeAnnotation { is_resource: false, written: Array(Type['T']) }) 2
a as T < b ⇒ Name('a') 4
f<T>(a) ⇒ Call { function: Name('f'), type_arguments: [TypeAnnotation { is_resource: false, written: Type['T'] }], arguments: [Argument { label: None, value: Name('a') }] } 0
f<T>↵(a) ⇒ Name('f') 6
f<A<B>>(x) ⇒ Call { function: Name('f'), type_arguments: [TypeAnnotation { is_resource: false, written: Type['A'] }, arguments: [TypeAnnotation { is_resource: false, written: Type['B'] }] } }], arguments: [Argument { label: None, value: Name('x') }] } 0
f<auth(E) &T>(x) ⇒ Call { function: Name('f'), type_arguments: [TypeAnnotation { is_resource: false, written: Reference { authorization: Some(All(Items { items: [Items { items: ['E'] }] })), target: Type['T'] } }], arguments: [Argument { label: None, value: Name('x') }] } 0
f<auth(E | F) &T>(x) ⇒ Call { function: Name('f'), type_arguments: [TypeAnnotation { is_resource: false, written: Reference { authorization: Some(Any(Items { items: [Items { items: ['E'] }, Items { items: ['F'] }] })), target: Type['T'] } }], arguments: [Argument { label: None, value: Name('x') }] } 0
f<{A, B}>(x) ⇒ Call { function: Name('f'), type_arguments: [TypeAnnotation { is_resource: false, written: Intersection(Items { items: [Items { items: ['A'] }, Items { items: ['B'] }] }) }], arguments: [Argument { label: None, value: Name('x') }] } 0
f<{K: V}>(x) ⇒ Call { function: Name('f'), type_arguments: [TypeAnnotation { is_resource: false, written: Dictionary(Type['K'], Type['V']) }], arguments: [Argument { label: None, value: Name('x') }] } 0
f<[A?]>(x) ⇒ Call { function: Name('f'), type_arguments: [TypeAnnotation { is_resource: false, written: Array(Optional(Type['A'])) }], arguments: [Argument { label: None, value: Name('x') }] } 0
f<A??>(x) ⇒ Call { function: Name('f'), type_arguments: [TypeAnnotation { is_resource: false, written: Optional(Optional(Type['A'])) }], arguments: [Argument { label: None, value: Name('x') }] } 0
f<@R, (A.B)>(x) ⇒ Call { function: Name('f'), type_arguments: [TypeAnnotation { is_resource: true, written: Type['R'] }, TypeAnnotation { is_resource: false, written: Type['A', 'B'] }], arguments: [Argument { label: None, value: Name('x') }] } 0
a<b<c>(d) ⇒ Binary(Less, Name('a'), Call { function: Name('b'), type_arguments: [TypeAnnotation { is_resource: false, written: Type['c'] }], arguments: [Argument { label: None, value: Name('d') }] }) 0
[a<b,a<b] ⇒ Array([Binary(Less, Name('a'), Name('b')), Binary(Less, Name('a'), Name('b'))]) 0
a < b ⇒ Binary(Less, Name('a'), Name('b')) 0
a.b < c > d ⇒ Binary(Greater, Binary(Less, Member(Name('a'), 'b'), Name('c')), Name('d')) 0
(a)<b>(c) ⇒ Binary(Greater, Binary(Less, Name('a'), Name('b')), Name('c')) 0
/storage/a < b ⇒ Binary(Less, Path(Path { domain: Storage, identifier: 'a' }), Name('b')) 0
/private/a ⇒ none 0
a↵(b) ⇒ Name('a') 3
a↵[b] ⇒ Name('a') 3
a↵! ⇒ Name('a') 1
a↵.b ⇒ Member(Name('a'), 'b') 0
self?.b![1] ⇒ Index(Force(OptionalMember(Self_, 'b')), Whole { value: 1, hexadecimal: false }) 0
[a, nil,] ⇒ Array([Name('a'), Nil]) 0
[,] ⇒ none 0
{0x1f: true, c: 1.5} ⇒ Dictionary([Entry { key: Whole { value: 31, hexadecimal: true }, value: Bool(true) }, Entry { key: Name('c'), value: Fixed(150000000) }]) 0
create R(a) + ⇒ Create { composite: Items { items: ['R'] }, arguments: [Argument { label: None, value: Name('a') }] } 1
f(a, ⇒ Name('f') 3
) ⇒ none 0
"#;
