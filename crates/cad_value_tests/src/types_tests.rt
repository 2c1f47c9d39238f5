// Worked examples.
use crate::telling::{equals, holds};
use cad_syntax::{
    Address, Authorization, Basic, CadType, Kind, Name, Names, Text, TypeId, TypeIds, Types,
};
use cad_types::{
    Declared, DeclaredTypes, Sort, is_closed, is_exportable, is_importable, is_resource,
    is_storable, is_subtype,
};
use std::alloc::Global;
use std::process::Abort;

fn id(rt: &impl Abort, alloc: Global, name: &str) -> TypeId {
    let text = Text::from_str(alloc, name).expect(rt, "memory");
    let mut names = Names::new(alloc);
    names.push(Name(text)).expect(rt, "memory");
    TypeId {
        address: Address(1),
        names,
    }
}

/// The identifiers of names with commas between them, of which a dot is none.
fn ids(rt: &impl Abort, alloc: Global, names: &str) -> TypeIds {
    let mut ids = TypeIds::new(alloc);
    for name in names.split(',') {
        if name != "." {
            ids.push(id(rt, alloc, name)).expect(rt, "memory");
        }
    }
    ids
}

static BASICS: [(&str, Basic); 13] = [
    ("Int", Basic::Number(Kind::Int)),
    ("Address", Basic::Number(Kind::Address)),
    ("Void", Basic::Void),
    ("Never", Basic::Never),
    ("String", Basic::String),
    ("Path", Basic::Path),
    ("StoragePath", Basic::StoragePath),
    ("PublicPath", Basic::PublicPath),
    ("Type", Basic::Meta),
    ("AnyStruct", Basic::AnyStruct),
    ("AnyResource", Basic::AnyResource),
    ("Account", Basic::Account),
    ("Controller", Basic::StorageCapabilityController),
];

fn basic(name: &str) -> Option<Basic> {
    for (word, basic) in BASICS.iter() {
        if *word == name {
            return Some(*basic);
        }
    }
    None
}

fn named(rt: &impl Abort, alloc: Global, name: &str) -> CadType {
    if let Some(basic) = basic(name) {
        return CadType::Basic(basic);
    }
    if name == "Capability" {
        return CadType::Capability;
    }
    match name.strip_prefix('{') {
        Some(rest) => CadType::Intersection(ids(rt, alloc, rest.strip_suffix('}').unwrap_or(rest))),
        None => CadType::Declared(id(rt, alloc, name)),
    }
}

fn boxed(rt: &impl Abort, alloc: Global, t: CadType) -> Box<CadType> {
    Box::new(alloc, t).expect(rt, "memory")
}

/// The authorization of a sign: all of E `+`, all of E and F `*`, any of E and F `|`.
fn authorization(rt: &impl Abort, alloc: Global, sign: u8) -> Authorization {
    match sign {
        b'+' => Authorization::All(ids(rt, alloc, "E")),
        b'*' => Authorization::All(ids(rt, alloc, "E,F")),
        b'|' => Authorization::Any(ids(rt, alloc, "E,F")),
        _ => Authorization::Unauthorized,
    }
}

/// A type inside another: optional `?`, array `[`, dictionary from texts `:`, capability `C`, reference `&`, and with the
/// entitlements E `+`, E and F `*`, E or F `|`.
fn around(rt: &impl Abort, alloc: Global, sign: u8, part: Box<CadType>) -> CadType {
    match sign {
        b'?' => CadType::Optional(part),
        b'[' => CadType::Array(part),
        b':' => CadType::Dictionary(boxed(rt, alloc, CadType::Basic(Basic::String)), part),
        b'C' => CadType::CapabilityOf(part),
        _ => CadType::Reference(authorization(rt, alloc, sign), part),
    }
}

/// The type of a word: its name, with the signs of what it is inside of and a slash before, the outermost first.
fn typed(rt: &impl Abort, alloc: Global, word: &str) -> CadType {
    let (signs, name) = word.split_once('/').unwrap_or(("", word));
    let mut t = named(rt, alloc, name);
    for sign in signs.as_bytes().iter().rev() {
        t = around(rt, alloc, *sign, boxed(rt, alloc, t));
    }
    t
}

fn sort(letter: &str) -> Sort {
    match letter {
        "C" => Sort::Contract,
        "S" => Sort::Struct,
        "R" => Sort::Resource,
        "E" => Sort::Enum,
        "V" => Sort::Event,
        "SI" => Sort::StructInterface,
        _ => Sort::ResourceInterface,
    }
}

/// A declaration of a line: its name, its sort, its interfaces and the types of its fields.
fn declaration(rt: &impl Abort, alloc: Global, line: &str) -> Declared {
    let mut words = line.split(' ');
    let id = id(rt, alloc, words.next().unwrap_or(""));
    let sort = sort(words.next().unwrap_or(""));
    let interfaces = ids(rt, alloc, words.next().unwrap_or(""));
    let mut fields = Types::new(alloc);
    for word in words {
        fields.push(typed(rt, alloc, word)).expect(rt, "memory");
    }
    Declared {
        id,
        sort,
        fields,
        interfaces,
    }
}

fn declarations(rt: &impl Abort, alloc: Global, lines: &str) -> Vec<Declared> {
    let mut declared = Vec::new(alloc);
    for line in lines.lines() {
        declared
            .push(declaration(rt, alloc, line))
            .expect(rt, "memory");
    }
    declared
}

/// The types of declarations, which are closed.
fn closed(rt: &impl Abort, alloc: Global, declared: Vec<Declared>) -> DeclaredTypes {
    assert!(rt; is_closed(declared.as_slice()), "closed");
    DeclaredTypes::new(alloc, declared).expect(rt, "memory")
}

/// The declared types of lines, which are closed.
fn declared_types(rt: &impl Abort, alloc: Global, lines: &str) -> DeclaredTypes {
    closed(rt, alloc, declarations(rt, alloc, lines))
}

/// A struct with an interface, a resource with two, one of which has the other, and these interfaces.
const INTERFACES: &str = "\
S S SI\n\
R R RJ,RI\n\
SI SI SI\n\
RI RI RI\n\
RJ RI RJ,RI";

/// Types, and for each of them which of them it is below. The rows are those of the least relation with the rules, closed under
/// steps between by a program of its own.
const BELOW: &str = "\
Never 11111111111111111111111111111111\n\
Int .1..1...........................\n\
Path ..1.1...........................\n\
StoragePath ..111...........................\n\
AnyStruct ....1...........................\n\
AnyResource .....1..........................\n\
?/Int ....1.1.........................\n\
?/Never ....1.111.......................\n\
?/R ........1.......................\n\
[/Int ....1....1..1...................\n\
[/Never ....11...11111..................\n\
[/AnyResource .....1.....1....................\n\
[/AnyStruct ....1.......1...................\n\
[/R .....1.....1.1..................\n\
:/Int ....1.........1.................\n\
:/Never ....11........111...............\n\
:/AnyResource .....1..........1...............\n\
S ....1............1.1............\n\
R .....1............1.111.........\n\
{SI} ....1..............1............\n\
{RI} .....1..............1...........\n\
{RJ} .....1..............111.........\n\
{RI,RJ} .....1..............111.........\n\
&/R ....1..................1...1....\n\
+/R ....1..................111.1....\n\
|/R ....1..................1.1.1....\n\
*/{RI} ....1.....................11....\n\
&/{RI} ....1......................1....\n\
Capability ....1.......................1...\n\
C&/R ....1.......................11.1\n\
C+/R ....1.......................1111\n\
C&/{RI} ....1.......................1..1";

/// What stands before a line's first space, and what behind it.
fn halves(line: &str) -> (&str, &str) {
    line.split_once(' ').unwrap_or((line, ""))
}

/// The types at the heads of the lines.
fn types(rt: &impl Abort, alloc: Global, lines: &str) -> Vec<CadType> {
    let mut types = Vec::new(alloc);
    for line in lines.lines() {
        let (word, _row) = halves(line);
        types.push(typed(rt, alloc, word)).expect(rt, "memory");
    }
    types
}

/// Whether a row has the digit one at a place.
fn is_one(row: &str, place: usize) -> bool {
    match row.as_bytes().get(place) {
        Some(digit) => *digit == b'1',
        None => false,
    }
}

fn is_row(declared_types: &DeclaredTypes, a: &CadType, types: &[CadType], row: &str) -> bool {
    for (place, b) in types.iter().enumerate() {
        if is_subtype(declared_types, a, b) != is_one(row, place) {
            return false;
        }
    }
    types.len() == row.len()
}

/// Asserts which of the types each of them is below.
fn rows_hold(rt: &impl Abort, declared_types: &DeclaredTypes, types: &[CadType]) {
    equals(rt, &types.len(), &32);
    for (a, line) in types.iter().zip(BELOW.lines()) {
        let (_word, row) = halves(line);
        holds(rt, is_row(declared_types, a, types, row), line);
    }
}

#[test]
fn types_stand_in_their_order(rt: HostRuntime) {
    let declared_types = declared_types(&rt, rt.alloc(), INTERFACES);
    let types = types(&rt, rt.alloc(), BELOW);
    rows_hold(&rt, &declared_types, types.as_slice());
    drop(types);
    drop(declared_types);
}

/// Whether the type is storable, importable and exportable: three digits.
fn is_judged(declared_types: &DeclaredTypes, t: &CadType, answers: &str) -> bool {
    answers.len() == 3
        && is_storable(declared_types, t) == is_one(answers, 0)
        && is_importable(declared_types, t) == is_one(answers, 1)
        && is_exportable(declared_types, t) == is_one(answers, 2)
}

/// Declarations that come back to themselves, with and without what is in no class.
const RECURSIVE: &str = "\
Tree S . [/Tree Int\n\
Bad S . [/Bad &/Int\n\
Ping S . [/Pong Int\n\
Pong S . ?/Ping Void\n\
Ring R . Ring Int\n\
List R . ?/List Int\n\
Sent V . Tree Ring\n\
Color E .\n\
Lib C .";

/// Types, and for each whether it is storable, importable and exportable.
const CLASSES: &str = "\
Tree 111\n\
Bad 000\n\
Ping 000\n\
Pong 000\n\
Ring 101\n\
List 100\n\
Sent 101\n\
Color 111\n\
Lib 100\n\
Address 111\n\
PublicPath 111\n\
AnyStruct 111\n\
AnyResource 100\n\
Never 100\n\
Type 100\n\
Void 001\n\
Account 000\n\
Controller 000\n\
C&/Int 100\n\
[&/Int 000\n\
{SI} 100\n\
:/Tree 111\n\
?/Void 000\n\
[/Void 000\n\
?/Ring 100";

/// Whether the type of a line is judged as the line says.
fn is_line(rt: &impl Abort, alloc: Global, declared_types: &DeclaredTypes, line: &str) -> bool {
    let (word, answers) = halves(line);
    let t = typed(rt, alloc, word);
    let holds = is_judged(declared_types, &t, answers);
    drop(t);
    holds
}

#[test]
fn types_are_judged(rt: HostRuntime) {
    let declared_types = declared_types(&rt, rt.alloc(), RECURSIVE);
    for line in CLASSES.lines() {
        holds(&rt, is_line(&rt, rt.alloc(), &declared_types, line), line);
    }
    drop(declared_types);
}

/// How deep a type in bytes may nest.
const DEEPEST: u32 = 1024;

/// A type as deep as that inside types of the signs in turn.
fn nested(rt: &impl Abort, alloc: Global, signs: &[u8; 4], name: &str) -> CadType {
    let mut t = named(rt, alloc, name);
    for i in 0..1024usize {
        t = around(rt, alloc, signs[i % 4], boxed(rt, alloc, t));
    }
    t
}

/// Two types with these names innermost, and whether the first is below the second.
fn is_nested_below(
    rt: &impl Abort,
    alloc: Global,
    declared_types: &DeclaredTypes,
    a: &str,
    b: &str,
) -> bool {
    let first = nested(rt, alloc, b"?[:&", a);
    let second = nested(rt, alloc, b"?[:&", b);
    let is_below = is_subtype(declared_types, &first, &second);
    drop(first);
    drop(second);
    is_below
}

/// Whether a type is below the greatest type of resources, and whether it is below that of structs.
fn tops(declared_types: &DeclaredTypes, t: &CadType) -> (bool, bool) {
    let resources = CadType::Basic(Basic::AnyResource);
    let structs = CadType::Basic(Basic::AnyStruct);
    let result = (
        is_subtype(declared_types, t, &resources),
        is_subtype(declared_types, t, &structs),
    );
    drop(resources);
    drop(structs);
    result
}

/// Asserts what stands over rings and nevers in arrays and dictionaries.
fn tops_hold(rt: &impl Abort, alloc: Global, declared_types: &DeclaredTypes) {
    let rings = nested(rt, alloc, b"[:[:", "Ring");
    equals(rt, &tops(declared_types, &rings), &(true, false));
    holds(
        rt,
        is_judged(declared_types, &rings, "100"),
        "rings are judged",
    );
    holds(
        rt,
        is_resource(declared_types, &rings),
        "rings are resources",
    );
    drop(rings);
    let nevers = nested(rt, alloc, b"[:[:", "Never");
    equals(rt, &tops(declared_types, &nevers), &(true, true));
    drop(nevers);
}

/// Asserts how trees in optionals, arrays and dictionaries are judged.
fn trees_hold(rt: &impl Abort, alloc: Global, declared_types: &DeclaredTypes) {
    let trees = nested(rt, alloc, b"?[:[", "Tree");
    holds(
        rt,
        is_judged(declared_types, &trees, "111"),
        "trees are judged",
    );
    equals(rt, &trees.nesting(DEEPEST), &Some(DEEPEST));
    drop(trees);
}

#[test]
fn walks_go_1024_deep(rt: HostRuntime) {
    let alloc = rt.alloc();
    let declared_types = declared_types(&rt, alloc, RECURSIVE);
    holds(
        &rt,
        is_nested_below(&rt, alloc, &declared_types, "Never", "Ring"),
        "never is below rings",
    );
    holds(
        &rt,
        !is_nested_below(&rt, alloc, &declared_types, "Ring", "Never"),
        "rings are not below never",
    );
    holds(
        &rt,
        is_nested_below(&rt, alloc, &declared_types, "Ring", "Ring"),
        "rings are below rings",
    );
    tops_hold(&rt, alloc, &declared_types);
    trees_hold(&rt, alloc, &declared_types);
    drop(declared_types);
}

/// Asserts what is told of a resource and of an interface.
fn resources_hold(rt: &impl Abort, alloc: Global, declared_types: &DeclaredTypes) {
    let resource = id(rt, alloc, "R");
    holds(
        rt,
        declared_types.find(&resource).is_some(),
        "the resource is found",
    );
    equals(rt, &declared_types.interfaces(&resource).len(), &2);
    holds(
        rt,
        declared_types.is_resource(&id(rt, alloc, "RI")),
        "the interface is one of resources",
    );
}

#[test]
fn declarations_are_tested(rt: HostRuntime) {
    let alloc = rt.alloc();
    let open = declarations(&rt, alloc, "R R RJ\nRJ RI RI");
    holds(
        &rt,
        !is_closed(open.as_slice()),
        "the declarations are open",
    );
    let declared_types = declared_types(&rt, alloc, INTERFACES);
    equals(&rt, &declared_types.declared().len(), &5);
    resources_hold(&rt, alloc, &declared_types);
    drop(declared_types);
}

/// A struct whose field nests as deep as a type may.
fn high(rt: &impl Abort, alloc: Global) -> Vec<Declared> {
    let mut high = declaration(rt, alloc, "High S .");
    high.fields
        .push(nested(rt, alloc, b"?[:[", "Int"))
        .expect(rt, "memory");
    let mut declared = Vec::new(alloc);
    declared.push(high).expect(rt, "memory");
    declared
}

#[test]
fn deep_fields_are_judged(rt: HostRuntime) {
    let declared_types = closed(&rt, rt.alloc(), high(&rt, rt.alloc()));
    holds(
        &rt,
        is_line(&rt, rt.alloc(), &declared_types, "High 111"),
        "High is judged",
    );
    drop(declared_types);
}
