//! What JSON files say as mock rules.

use base_texts::{Name, NoMemory, Stop};
use spec_script::ScriptFault;
use spec_tree_file::{Configuration, MockFault, ReturnStatus, Rules};
use std::alloc::Global;
use std::test::Fail;
use tree_mock::read_rules;

/// A name as a text.
fn shown(name: &Name) -> &str {
    str::from_utf8(name.list()).unwrap_or("?")
}

/// A fault of a script, with its place.
fn script_fault_text(alloc: Global, fault: ScriptFault) -> Result<String, NoMemory> {
    let text = match fault {
        ScriptFault::TooLong => String::from_str(alloc, "TooLong")?,
        ScriptFault::Syntax { place } => format!(in alloc; "Syntax {place}")?,
        ScriptFault::RealNumber { place } => format!(in alloc; "RealNumber {place}")?,
        ScriptFault::NumberTooWide { place } => format!(in alloc; "NumberTooWide {place}")?,
        ScriptFault::TooNested { place } => format!(in alloc; "TooNested {place}")?,
    };
    Ok(text)
}

/// A fault of a rules file, as one line.
fn fault_text(alloc: Global, fault: MockFault) -> Result<String, NoMemory> {
    let text = match fault {
        MockFault::Json => String::from_str(alloc, "Json")?,
        MockFault::Form { name } => format!(in alloc; "Form '{}'", shown(&name))?,
        MockFault::BadScript { name, fault } => {
            let fault = script_fault_text(alloc, fault)?;
            format!(in alloc; "BadScript '{}' {fault}", shown(&name))?
        }
        MockFault::TooManyNodes => String::from_str(alloc, "TooManyNodes")?,
        MockFault::TooDeep => String::from_str(alloc, "TooDeep")?,
        MockFault::TooManyKeys => String::from_str(alloc, "TooManyKeys")?,
        MockFault::TooMuchWork => String::from_str(alloc, "TooMuchWork")?,
    };
    Ok(text)
}

/// A configuration: its name, its status, its delay, and its script where it has one.
fn configuration_text(alloc: Global, c: &Configuration) -> Result<String, NoMemory> {
    let status = match c.return_status {
        ReturnStatus::Success => "SUCCESS",
        ReturnStatus::Failure => "FAILURE",
    };
    let name = shown(&c.name);
    let delay = c.async_delay;
    let text = match &c.post_script {
        Some(script) => {
            let script = str::from_utf8(script.get().text.list()).unwrap_or("?");
            format!(in alloc; "{name} {status} {delay} '{script}'; ")?
        }
        None => format!(in alloc; "{name} {status} {delay}; ")?,
    };
    Ok(text)
}

/// The configurations and the rules in their order, each followed by a semicolon.
fn rules_text(alloc: Global, rules: &Rules) -> Result<String, NoMemory> {
    let mut text = String::new(alloc);
    for c in rules.configurations.list() {
        text.push_str(configuration_text(alloc, c)?.as_str())?;
    }
    for rule in rules.rules.list() {
        let line = format!(in alloc;
            "{} -> {}; ",
            shown(&rule.pattern),
            shown(&rule.replacement)
        )?;
        text.push_str(line.as_str())?;
    }
    Ok(text)
}

/// What a file says, or its fault.
fn file_text(alloc: Global, bytes: &[u8]) -> Result<String, NoMemory> {
    match read_rules(alloc, bytes) {
        Ok(rules) => rules_text(alloc, &rules),
        Err(Stop::Fault(fault)) => fault_text(alloc, fault),
        Err(Stop::NoMemory) => Err(NoMemory),
    }
}

/// Files, and what they say.
static FILES: [(&str, &str); 28] = [
    ("{}", ""),
    ("{", "Json"),
    ("", "Json"),
    ("{} {}", "Json"),
    ("[]", "Form ''"),
    ("null", "Form ''"),
    (r#"{"TestNodeConfigs":[]}"#, "Form ''"),
    (r#"{"SubstitutionRules":null}"#, "Form ''"),
    (
        r#"{"SubstitutionRules":1,"TestNodeConfigs":{"N":0}}"#,
        "Form ''",
    ),
    (r#"{"TestNodeConfigs":{},"SubstitutionRules":{}}"#, ""),
    (r#"{"Other":[1,{"a":null}],"TestNodeConfigs":{}}"#, ""),
    (r#"{"TestNodeConfigs":{"N":0}}"#, "Form 'N'"),
    (r#"{"TestNodeConfigs":{"N":{}}}"#, "Form 'N'"),
    (
        r#"{"TestNodeConfigs":{"N":{"return_status":"SUCCESS","other":[2]}}}"#,
        "N SUCCESS 0; ",
    ),
    (
        r#"{"TestNodeConfigs":{"N":{"return_status":"FAILURE","async_delay":100,"post_script":"m := 5"}}}"#,
        "N FAILURE 100 'm := 5'; ",
    ),
    (
        r#"{"TestNodeConfigs":{"N":{"return_status":"RUNNING"}}}"#,
        "Form 'N'",
    ),
    (
        r#"{"TestNodeConfigs":{"N":{"return_status":1}}}"#,
        "Form 'N'",
    ),
    (
        r#"{"TestNodeConfigs":{"N":{"return_status":"SUCCESS","post_script":5}}}"#,
        "Form 'N'",
    ),
    (
        r#"{"TestNodeConfigs":{"B":{"return_status":"SUCCESS"},"A":{"return_status":"FAILURE"},"é":{"return_status":"SUCCESS"}}}"#,
        "A FAILURE 0; B SUCCESS 0; é SUCCESS 0; ",
    ),
    (
        r#"{"TestNodeConfigs":{"A":{"return_status":"SUCCESS"},"A":{"return_status":"FAILURE"}}}"#,
        "A FAILURE 0; ",
    ),
    (
        r#"{"TestNodeConfigs":{"A":0},"TestNodeConfigs":{"B":{"return_status":"SUCCESS","return_status":"FAILURE"}}}"#,
        "B FAILURE 0; ",
    ),
    (
        r#"{"SubstitutionRules":{"b*":"X","a":"AlwaysSuccess","*":""}}"#,
        "* -> ; a -> AlwaysSuccess; b* -> X; ",
    ),
    (r#"{"SubstitutionRules":{"a":"X","a":"Y"}}"#, "a -> Y; "),
    (r#"{"SubstitutionRules":{"a":"X","b":2}}"#, "Form 'b'"),
    (
        r#"{"SubstitutionRules":{"a":1},"TestNodeConfigs":{"N":{"return_status":"SUCCESS","post_script":"("}}}"#,
        "BadScript 'N' Syntax 1",
    ),
    (
        r#"{"TestNodeConfigs":{"B":0,"A":{"return_status":"SUCCESS","post_script":"("}}}"#,
        "BadScript 'A' Syntax 1",
    ),
    (
        r#"{"TestNodeConfigs":{"A":{"async_delay":"x","return_status":"SUCCESS","post_script":"("}}}"#,
        "Form 'A'",
    ),
    (
        r#"{"TestNodeConfigs":{"\u0041":{"return_status":"SUCC\u0045SS"}}}"#,
        "A SUCCESS 0; ",
    ),
];

#[test]
fn files(rt: HostRuntime) -> Result<(), Fail> {
    let alloc = rt.alloc();
    for (file, wanted) in &FILES {
        assert_eq!(rt;
            file_text(alloc, file.as_bytes())?.as_str(),
            *wanted,
            "{file}"
        );
    }
    Ok(())
}

/// How an `async_delay` is written, and what the file says.
static DELAYS: [(&str, &str); 12] = [
    ("0", "N SUCCESS 0; "),
    ("7", "N SUCCESS 7; "),
    ("4294967295", "N SUCCESS 4294967295; "),
    ("4294967296", "Form 'N'"),
    ("18446744073709551616", "Form 'N'"),
    ("1.0", "Form 'N'"),
    ("-1", "Form 'N'"),
    ("-0", "Form 'N'"),
    ("1e2", "Form 'N'"),
    ("null", "Form 'N'"),
    ("\"5\"", "Form 'N'"),
    ("01", "Json"),
];

#[test]
fn delays(rt: HostRuntime) -> Result<(), Fail> {
    let alloc = rt.alloc();
    for (delay, wanted) in &DELAYS {
        let file = format!(in alloc;
            "{{\"TestNodeConfigs\":{{\"N\":{{\"return_status\":\"SUCCESS\",\"async_delay\":{delay}}}}}}}"
        )?;
        assert_eq!(rt;
            file_text(alloc, file.as_bytes())?.as_str(),
            *wanted,
            "{delay}"
        );
    }
    Ok(())
}

/// Scripts, each with its fault.
static SCRIPTS: [(&str, &str); 5] = [
    ("m := 5; n := m", "N SUCCESS 0 'm := 5; n := m'; "),
    ("", "BadScript 'N' Syntax 0"),
    ("m := ", "BadScript 'N' Syntax 5"),
    ("m := 1.5", "BadScript 'N' RealNumber 5"),
    ("m := 9223372036854775808", "BadScript 'N' NumberTooWide 5"),
];

/// The file of one configuration with this script.
fn scripted(alloc: Global, script: &str) -> Result<String, NoMemory> {
    Ok(format!(in alloc;
        "{{\"TestNodeConfigs\":{{\"N\":{{\"return_status\":\"SUCCESS\",\"post_script\":\"{script}\"}}}}}}"
    )?)
}

#[test]
fn scripts(rt: HostRuntime) -> Result<(), Fail> {
    let alloc = rt.alloc();
    for (script, wanted) in &SCRIPTS {
        let file = scripted(alloc, script)?;
        assert_eq!(rt;
            file_text(alloc, file.as_bytes())?.as_str(),
            *wanted,
            "{script}"
        );
    }
    let nested = format!(in alloc; "m := {}1", "-".repeat(alloc, 64)?)?;
    let file = scripted(alloc, nested.as_str())?;
    assert_eq!(rt;
        file_text(alloc, file.as_bytes())?.as_str(),
        "BadScript 'N' TooNested 0"
    );
    let long = " ".repeat(alloc, 4097)?;
    let file = scripted(alloc, long.as_str())?;
    assert_eq!(rt;
        file_text(alloc, file.as_bytes())?.as_str(),
        "BadScript 'N' TooLong"
    );
    Ok(())
}

/// How deep a file may nest: the document is the first level.
#[test]
fn nested(rt: HostRuntime) -> Result<(), Fail> {
    let alloc = rt.alloc();
    let rows = [(126_usize, ""), (127, "Json")];
    for (arrays, wanted) in &rows {
        let open = "[".repeat(alloc, *arrays)?;
        let close = "]".repeat(alloc, *arrays)?;
        let file = format!(in alloc; "{{\"x\":{open}{close}}}")?;
        assert_eq!(rt;
            file_text(alloc, file.as_bytes())?.as_str(),
            *wanted,
            "{arrays}"
        );
    }
    Ok(())
}

/// A byte that is no UTF-8 is no JSON, also where the rest is.
#[test]
fn bytes(rt: HostRuntime) -> Result<(), Fail> {
    let alloc = rt.alloc();
    assert_eq!(rt; file_text(alloc, b"{\"a\":\"\xff\"}")?.as_str(), "Json");
    assert_eq!(rt; file_text(alloc, b"{\"a\":\"\xc3\xa9\"}")?.as_str(), "");
    Ok(())
}
