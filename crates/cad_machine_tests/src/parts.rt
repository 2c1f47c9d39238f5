// Runs that know some accounts: which one they lack, and what they come to. The expected values are those of the language's definition; an
// account is lacked where the statement that is evaluated next needs what it holds.
use crate::rows::{Expected, Part, end_known, read_known};
use cad_outcomes::RunError;

#[test]
fn a_run_says_which_account_it_lacks(rt: HostRuntime) {
    let rows: [Part<'_>; 7] = [
        (
            "",
            &[],
            "a.storage.save(7, to: /storage/x)",
            Expected::Lacks(0),
        ),
        (
            "",
            &[0],
            "a.storage.save(7, to: /storage/x)
            b.storage.save(8, to: /storage/x)",
            Expected::Lacks(1),
        ),
        ("", &[1], "C.keep(n: 8)", Expected::Lacks(0)),
        (
            "",
            &[0],
            "C.say(b: b.capabilities.exists(/public/x))",
            Expected::Lacks(1),
        ),
        (
            "",
            &[0],
            "C.say(b: getAccount(0x2).storage.check<Int>(from: /storage/x))",
            Expected::Lacks(1),
        ),
        (
            "b.storage.save(<-C.make(n: 3), to: /storage/r)",
            &[],
            "let r <- b.storage.load<@C.R>(from: /storage/r)!
            a.storage.save(<-r, to: /storage/r)",
            Expected::Lacks(1),
        ),
        (
            "b.storage.save(<-C.make(n: 3), to: /storage/r)",
            &[1],
            "let r <- b.storage.load<@C.R>(from: /storage/r)!
            a.storage.save(<-r, to: /storage/r)",
            Expected::Lacks(0),
        ),
    ];
    end_known(&rt, rt.alloc(), &rows);
}

#[test]
fn a_run_needs_the_accounts_that_it_uses(rt: HostRuntime) {
    let rows: [Part<'_>; 8] = [
        ("", &[], "C.tell(n: 1)", Expected::Tells(&[1])),
        ("", &[], "C.say(b: b.address == 0x2)", Expected::Tells(&[1])),
        (
            "",
            &[],
            "C.say(b: getAccount(0x7).storage.check<Int>(from: /storage/x))
            C.say(b: getAccount(0x7).capabilities.exists(/public/x))",
            Expected::Tells(&[0, 0]),
        ),
        (
            "",
            &[0],
            "a.storage.save(7, to: /storage/x)
            C.tell(n: a.storage.load<Int>(from: /storage/x)!)",
            Expected::Tells(&[7]),
        ),
        (
            "a.storage.save(7, to: /storage/x)
            b.storage.save(8, to: /storage/x)",
            &[1, 0],
            "C.tell(n: a.storage.load<Int>(from: /storage/x)!)
            C.tell(n: b.storage.load<Int>(from: /storage/x)!)",
            Expected::Tells(&[7, 8]),
        ),
        (
            "b.storage.save(7, to: /storage/x)",
            &[1],
            "let c = b.capabilities.storage.issue<&Int>(/storage/x)
            C.say(b: c.check())",
            Expected::Tells(&[1]),
        ),
        (
            "",
            &[1],
            "C.keep(n: 8)
            b.storage.save(1, to: /storage/x)",
            Expected::Lacks(0),
        ),
        (
            "",
            &[0],
            "a.storage.save(1, to: /storage/x)
            a.storage.save(2, to: /storage/x)
            b.storage.save(3, to: /storage/x)",
            Expected::Fails(RunError::PathOccupied),
        ),
    ];
    end_known(&rt, rt.alloc(), &rows);
}

#[test]
fn an_account_has_the_address_of_its_index(rt: HostRuntime) {
    let rows: [Part<'_>; 3] = [
        (
            "b.storage.save(<-C.make(n: 3), to: /storage/r)",
            &[1],
            "let r = b.storage.borrow<&C.R>(from: /storage/r)!
            C.say(b: r.place()! == 0x2)
            r.set(n: 4)
            C.tell(n: b.storage.borrow<&C.R>(from: /storage/r)!.n)",
            Expected::Tells(&[1, 4]),
        ),
        (
            "a.storage.save(<-C.outer(n: 5), to: /storage/o)
            b.storage.save(<-C.outer(n: 8), to: /storage/o)",
            &[1, 0],
            "let o = a.storage.borrow<&C.Outer>(from: /storage/o)!
            let p = b.storage.borrow<&C.Outer>(from: /storage/o)!
            C.say(b: o.inner.place()! == 0x1)
            C.say(b: p.all[0].place()! == 0x2)
            C.tell(n: o.n)
            C.tell(n: p.n)",
            Expected::Tells(&[1, 1, 5, 8]),
        ),
        (
            "b.storage.save(<-C.make(n: 3), to: /storage/r)",
            &[1],
            "let r <- b.storage.load<@C.R>(from: /storage/r)!
            C.say(b: r.place() == nil)
            b.storage.save(<-r, to: /storage/q)
            C.say(b: b.storage.borrow<&C.R>(from: /storage/q)!.place()! == 0x2)",
            Expected::Tells(&[1, 1]),
        ),
    ];
    end_known(&rt, rt.alloc(), &rows);
}

#[test]
fn a_capability_needs_the_account_of_its_controller(rt: HostRuntime) {
    let issued = "a.storage.save(<-C.make(n: 6), to: /storage/r)
        let c = a.capabilities.storage.issue<&C.R>(/storage/r)
        a.capabilities.publish(c, at: /public/r)
        b.storage.save(c, to: /storage/c)";
    let borrowed = "let c = b.storage.load<Capability<&C.R>>(from: /storage/c)!
        C.tell(n: Int(c.id))
        C.tell(n: c.borrow()!.n)";
    let led = "let k = a.capabilities.storage.getController(byCapabilityID: 1)!
        C.tell(n: Int(k.capabilityID))
        k.setTag(\"t\")
        C.say(b: k.tag == \"t\")";
    let rows: [Part<'_>; 6] = [
        (
            issued,
            &[1],
            "let c = b.storage.load<Capability<&C.R>>(from: /storage/c)!
            C.tell(n: Int(c.id))
            C.say(b: c.address == 0x1)",
            Expected::Tells(&[1, 1]),
        ),
        (issued, &[1], borrowed, Expected::Lacks(0)),
        (issued, &[0], borrowed, Expected::Lacks(1)),
        (issued, &[1, 0], borrowed, Expected::Tells(&[1, 6])),
        (issued, &[0], led, Expected::Tells(&[1, 1])),
        (issued, &[1], led, Expected::Lacks(0)),
    ];
    end_known(&rt, rt.alloc(), &rows);
}

#[test]
fn a_script_says_which_account_it_lacks(rt: HostRuntime) {
    let saved = "a.storage.save(<-C.make(n: 6), to: /storage/r)
        a.capabilities.publish(a.capabilities.storage.issue<&C.R>(/storage/r), at: /public/r)";
    let borrowed = "return getAccount(0x1).capabilities.borrow<&C.R>(/public/r)!.n";
    let checked = "return getAccount(0x2).storage.check<Int>(from: /storage/x) ? 1 : 0";
    let rows: [Part<'_>; 6] = [
        (saved, &[0], borrowed, Expected::Tells(&[6])),
        (saved, &[1], borrowed, Expected::Lacks(0)),
        (saved, &[], borrowed, Expected::Lacks(0)),
        (saved, &[1], checked, Expected::Tells(&[0])),
        (saved, &[0], checked, Expected::Lacks(1)),
        (saved, &[], "return 5", Expected::Tells(&[5])),
    ];
    read_known(&rt, rt.alloc(), &rows);
}
