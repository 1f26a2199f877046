//! Values and the bytes that encode them, both ways, and bytes that are refused, with the place of the fault.
ghost use Rattle.argdata_codec.specs.Encoding.{CanBeEncoded};
ghost use Rattle.argdata_codec.specs.Views.{shape_of};

use argdata_codec::{ArgFault, Value, decode, encode};
use lists::Stop;
use std::alloc::Global;
use std::test::Fail;

// What a value is.
enum Form {
    Null,
    Binary(&'static [u8]),
    Bool(bool),
    Fd(u32),
    Int(i128),
    Map(&'static [(Form, Form)]),
    Seq(&'static [Form]),
    Str(&'static str),
}

const EXAMPLES: &[(&[u8], Form)] = &[
    (&[], Form::Null),
    (&[5], Form::Int(0)),
    (&[5, 0, 0x80], Form::Int(128)),
    (&[5, 0xff], Form::Int(-1)),
    (&[2, 1], Form::Bool(true)),
    (&[2], Form::Bool(false)),
    (&[3, 0, 0, 0, 1], Form::Fd(1)),
    (&[8, 0x68, 0x69, 0], Form::Str("hi")),
    (
        &[
            6, 0x8a, 8, 0x67, 0x72, 0x65, 0x65, 0x74, 0x69, 0x6e, 0x67, 0, 0x84, 8, 0x68, 0x69, 0, // greeting, hi
            0x83, 8, 0x6e, 0, 0x82, 5, 5, // n, 5
        ],
        Form::Map(&[
            (Form::Str("greeting"), Form::Str("hi")),
            (Form::Str("n"), Form::Int(5)),
        ]),
    ),
];

// 65 sequences inside each other. Without the first three bytes they are 64.
const DEEPER: [u8; 131] = [
    7, 1, 0x80, 7, 0xfe, 7, 0xfc, 7, 0xfa, 7, 0xf8, 7, 0xf6, 7, 0xf4, 7, 0xf2, 7, 0xf0, 7, 0xee, 7,
    0xec, 7, 0xea, 7, 0xe8, 7, 0xe6, 7, 0xe4, 7, 0xe2, 7, 0xe0, 7, 0xde, 7, 0xdc, 7, 0xda, 7, 0xd8,
    7, 0xd6, 7, 0xd4, 7, 0xd2, 7, 0xd0, 7, 0xce, 7, 0xcc, 7, 0xca, 7, 0xc8, 7, 0xc6, 7, 0xc4, 7,
    0xc2, 7, 0xc0, 7, 0xbe, 7, 0xbc, 7, 0xba, 7, 0xb8, 7, 0xb6, 7, 0xb4, 7, 0xb2, 7, 0xb0, 7, 0xae,
    7, 0xac, 7, 0xaa, 7, 0xa8, 7, 0xa6, 7, 0xa4, 7, 0xa2, 7, 0xa0, 7, 0x9e, 7, 0x9c, 7, 0x9a, 7,
    0x98, 7, 0x96, 7, 0x94, 7, 0x92, 7, 0x90, 7, 0x8e, 7, 0x8c, 7, 0x8a, 7, 0x88, 7, 0x86, 7, 0x84,
    7, 0x82, 7, 0x80,
];

// A sequence of one value, whose encoding has a length of two bytes.
const LONG: Form = Form::Seq(&[Form::Binary(&[7; 299])]);

// The value has this form, and no more than so many maps and sequences stand inside each other.
#[cycle(compare)]
fn has_form(value: &Value, form: &Form, depth: usize) -> bool {
    match value {
        Value::Null => matches!(form, Form::Null),
        Value::Binary(bytes) => matches!(form, Form::Binary(want) if bytes.as_slice() == *want),
        Value::Bool(truth) => matches!(form, Form::Bool(want) if truth == want),
        Value::Fd(number) => matches!(form, Form::Fd(want) if number == want),
        Value::Int(number) => matches!(form, Form::Int(want) if number == want),
        Value::Str(text) => matches!(form, Form::Str(want) if text.as_str() == *want),
        Value::Map(pairs) => match form {
            Form::Map(want) => have_forms_in_pairs(pairs.as_slice(), want, depth),
            _ => false,
        },
        Value::Seq(items) => match form {
            Form::Seq(want) => have_forms(items.as_slice(), want, depth),
            _ => false,
        },
    }
}

#[cycle(compare)]
fn have_forms(values: &[Value], forms: &[Form], depth: usize) -> bool {
    let Some(inside) = depth.checked_sub(1) else {
        return false;
    };
    for (value, form) in values.iter().zip(forms) {
        if !has_form(value, form, inside) {
            return false;
        }
    }
    values.len() == forms.len()
}

#[cycle(compare)]
fn have_forms_in_pairs(pairs: &[(Value, Value)], forms: &[(Form, Form)], depth: usize) -> bool {
    let Some(inside) = depth.checked_sub(1) else {
        return false;
    };
    for ((key, value), (key_form, value_form)) in pairs.iter().zip(forms) {
        if !has_form(key, key_form, inside) || !has_form(value, value_form, inside) {
            return false;
        }
    }
    pairs.len() == forms.len()
}

fn is_encoded(alloc: Global, bytes: &[u8], form: &Form) -> bool {
    match decode(alloc, bytes) {
        Ok(value) => has_form(&value, form, 1),
        Err(_) => false,
    }
}

// The value is encoded so.
fn is_encoding(alloc: Global, value: &Value, bytes: &[u8]) -> bool
    requires { CanBeEncoded (shape_of value.now) }
{
    match encode(alloc, value) {
        Ok(encoded) => encoded.as_slice() == bytes,
        Err(_) => false,
    }
}

// The bytes encode a value that is encoded so.
fn is_encoded_again(alloc: Global, bytes: &[u8]) -> bool {
    match decode(alloc, bytes) {
        Ok(value) => is_encoding(alloc, &value, bytes),
        Err(_) => false,
    }
}

#[test]
fn examples(rt: HostRuntime) {
    for (bytes, form) in EXAMPLES {
        let both_ways = is_encoded(rt.alloc(), bytes, form) && is_encoded_again(rt.alloc(), bytes);
        assert!(rt; both_ways, "{bytes:?}");
    }
}

#[test]
fn a_long_length(rt: HostRuntime) -> Result<(), Fail> {
    let mut bytes = [7, 2, 0xac, 1].to_vec(rt.alloc())?;
    bytes.resize(303, 7)?;
    let both_ways = is_encoded(rt.alloc(), &bytes, &LONG) && is_encoded_again(rt.alloc(), &bytes);
    assert!(rt; both_ways);
    Ok(())
}

#[test]
fn depth(rt: HostRuntime) {
    assert!(rt; is_encoded_again(rt.alloc(), &DEEPER[3..]));
}

// Bytes that encode no value, and the place of the fault.
const FAULTS: &[(&[u8], usize)] = &[
    // An integer that isn't the shortest, and a boolean of another byte.
    (&[5, 0], 2),
    (&[5, 0, 1], 2),
    (&[5, 0xff, 0x80], 2),
    (&[2, 2], 1),
    (&[2, 0], 1),
    (&[2, 1, 0], 2),
    // A length that isn't the shortest, and one that its container has no room for.
    (&[7, 0, 0x80], 1),
    (&[7, 0x82, 7, 0x82], 3),
    (&[7, 0x82, 7, 1], 3),
    // The end of the input.
    (&[3, 0, 0], 3),
    (&[8, 0x68], 2),
    (&[7, 0x85, 8], 3),
    (&[7, 1, 2, 3], 4),
    // Texts: a zero byte within, and bytes that are no UTF-8.
    (&[8, 0, 0], 2),
    (&[7, 0x84, 8, 0, 0, 0], 3),
    (&[8, 0xe0, 0x80], 2),
    (&[7, 0x83, 8, 0xe0], 3),
    // A map's key without a value, where there is room for none, and where the input ends.
    (&[7, 0x82, 6, 0x80], 2),
    (&[7, 0x83, 6, 0x81], 3),
    (&[6, 0x80], 2),
    // A kind that there is not.
    (&[4], 0),
    (&[7, 0x81, 9], 2),
    // The innermost of 65 sequences: behind its tag one byte stands.
    (&DEEPER, 129),
];

#[test]
fn faults(rt: HostRuntime) {
    for (bytes, at) in FAULTS {
        assert!(rt;
            matches!(decode(rt.alloc(), bytes), Err(Stop::At(ArgFault { at: found })) if found == *at),
            "{bytes:?}"
        );
    }
}
