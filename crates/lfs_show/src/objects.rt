//! Objects of JSON (RFC 8259), one a line, for programs.
use json::Writer;
use lfs_fs::Stat;
use lfs_host::fault::Fault;
use lfs_host::printing::put;
use lfs_model::Kind;
use std::alloc::{AllocError, Global};
use std::io::Write;
use std::str;

/// What a field is called that has bytes: as text, and as hexadecimal digits where they aren't
/// UTF-8.
#[derive(Clone, Copy)]
pub struct Label<'a> {
    text: &'a str,
    digits: &'a str,
}

const NAME: Label = Label {
    text: "name",
    digits: "name_hex",
};

const TARGET: Label = Label {
    text: "target",
    digits: "target_hex",
};

/// An object whose fields come in the order in which they are added.
#[derive(Drop)]
pub struct Object {
    writer: Writer,
}

impl Object {
    pub fn new(alloc: Global) -> Result<Object, AllocError> {
        let mut writer = Writer::new(Vec::new(alloc));
        writer.begin_object()?;
        Ok(Object { writer })
    }

    pub fn text(&mut self, name: &str, text: &str) -> Result<(), AllocError> {
        self.writer.key(name)?;
        self.writer.string(text)
    }

    /// Adds numbers, each under its name.
    pub fn numbers(&mut self, fields: &[(&str, u64)]) -> Result<(), AllocError> {
        for (name, number) in fields {
            self.writer.key(name)?;
            self.writer.u64(*number)?;
        }
        Ok(())
    }

    /// Begins a list, to which `item` adds.
    pub fn begin_list(&mut self, name: &str) -> Result<(), AllocError> {
        self.writer.key(name)?;
        self.writer.begin_array()
    }

    pub fn item(&mut self, number: u64) -> Result<(), AllocError> {
        self.writer.u64(number)
    }

    pub fn end_list(&mut self) -> Result<(), AllocError> {
        self.writer.end_array()
    }

    fn bytes(&mut self, alloc: Global, label: Label<'_>, bytes: &[u8]) -> Result<(), AllocError> {
        match str::from_utf8(bytes) {
            Ok(text) => self.text(label.text, text),
            Err(_) => {
                let digits = hex::encode(alloc, bytes)?;
                self.text(label.digits, digits.as_str())
            }
        }
    }

    /// Writes the whole object, and ends its line.
    pub fn put<W: Write>(self, output: &mut W) -> Result<(), Fault> {
        let Object { mut writer } = self;
        writer.end_object()?;
        put(output, writer.into_inner().as_slice())?;
        put(output, b"\n")
    }
}

fn kind_word(kind: Kind) -> &'static str {
    match kind {
        Kind::File => "file",
        Kind::Directory => "dir",
        Kind::Link => "link",
    }
}

// What stands under a name, and where a link leads to.
fn node(
    alloc: Global,
    name: &[u8],
    stat: Stat,
    target: Option<&[u8]>,
) -> Result<Object, AllocError> {
    let mut object = Object::new(alloc)?;
    object.bytes(alloc, NAME, name)?;
    object.text("kind", kind_word(stat.kind))?;
    object.numbers(&[
        ("number", u64::from(stat.number)),
        ("links", u64::from(stat.links)),
        ("size", stat.size),
    ])?;
    if let Some(text) = target {
        object.bytes(alloc, TARGET, text)?;
    }
    Ok(object)
}

/// Writes a line of what stands under a name, and of where a link leads to.
pub fn put_node<W: Write>(
    alloc: Global,
    output: &mut W,
    name: &[u8],
    stat: Stat,
    target: Option<&[u8]>,
) -> Result<(), Fault> {
    node(alloc, name, stat, target)?.put(output)
}
