//! Documents as texts.
use launch_yaml::{Node, NodeValue};
use std::alloc::{AllocError, Global};

/// A node as a text: `~`, `true`, `7`, `'text'`, `<hexadecimal bytes>`, `{key: value}`, `[item]`, a tag before its value,
/// and before both the number of the line, if asked for.
pub(crate) fn printed(alloc: Global, node: &Node, with_lines: bool) -> Result<String, AllocError> {
    let mut printer = Printer {
        out: String::new(alloc),
        with_lines,
    };
    printer.node(node, 70)?;
    Ok(printer.out)
}

#[derive(Drop)]
struct Printer {
    out: String,
    with_lines: bool,
}

impl Printer {
    // So many maps and sequences are printed inside each other.
    #[cycle(print)]
    fn node(&mut self, node: &Node, depth: usize) -> Result<(), AllocError> {
        if self.with_lines {
            write!(self.out, "@{} ", node.line)?;
        }
        if let Some(tag) = &node.tag {
            write!(self.out, "!{} ", tag.as_str())?;
        }
        match &node.value {
            NodeValue::Null => self.out.push('~'),
            NodeValue::Bool(value) => write!(self.out, "{value}"),
            NodeValue::Int(value) => write!(self.out, "{}", value.value()),
            NodeValue::Str(value) => write!(self.out, "'{}'", value.as_str()),
            NodeValue::Binary(bytes) => self.bytes(bytes.as_slice()),
            NodeValue::Map(pairs) => self.pairs(pairs.as_slice(), depth),
            NodeValue::Seq(items) => self.items(items.as_slice(), depth),
        }
    }

    // Four bits.
    fn half(&mut self, bits: u8) -> Result<(), AllocError> {
        match char::from_digit(u32::from(bits), 16) {
            Some(digit) => self.out.push(digit),
            None => Ok(()),
        }
    }

    fn bytes(&mut self, bytes: &[u8]) -> Result<(), AllocError> {
        self.out.push('<')?;
        for byte in bytes {
            self.half(byte >> 4)?;
            self.half(byte & 15)?;
        }
        self.out.push('>')
    }

    #[cycle(print)]
    fn pairs(&mut self, pairs: &[(Node, Node)], depth: usize) -> Result<(), AllocError> {
        let Some(inside) = depth.checked_sub(1) else {
            return self.out.push_str("..");
        };
        self.out.push('{')?;
        for (i, (key, value)) in pairs.iter().enumerate() {
            if i > 0 {
                self.out.push_str(", ")?;
            }
            self.node(key, inside)?;
            self.out.push_str(": ")?;
            self.node(value, inside)?;
        }
        self.out.push('}')
    }

    #[cycle(print)]
    fn items(&mut self, items: &[Node], depth: usize) -> Result<(), AllocError> {
        let Some(inside) = depth.checked_sub(1) else {
            return self.out.push_str("..");
        };
        self.out.push('[')?;
        for (i, item) in items.iter().enumerate() {
            if i > 0 {
                self.out.push_str(", ")?;
            }
            self.node(item, inside)?;
        }
        self.out.push(']')
    }
}
