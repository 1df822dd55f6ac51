//! The units of a program that is compiled.
use cacache::env::Folders;
use cacache::{Result, read_sync, write_sync};

/// The folder of the cache.
const CACHE: &str = "units";

/// A unit: its name, what it gives to others, and which others it uses.
#[derive(Clone, Copy, Debug)]
pub(crate) struct Unit {
    name: &'static str,
    interface: &'static str,
    uses: &'static [&'static str],
}

/// The units. Two of them use each other, so that neither could be compiled before the other one's interface is there.
pub(crate) const UNITS: [Unit; 4] = [
    Unit {
        name: "lexer",
        interface: "fn tokens(&str) -> Tokens",
        uses: &["tree"],
    },
    Unit {
        name: "parser",
        interface: "fn parse(Tokens) -> Node",
        uses: &["lexer", "tree"],
    },
    Unit {
        name: "printer",
        interface: "fn print(&Node) -> String",
        uses: &["tree"],
    },
    Unit {
        name: "tree",
        interface: "struct Node",
        uses: &["printer"],
    },
];

/// Reads what the cache has under a key.
fn get(env: &mut Folders, key: &str) -> Result<Vec<u8>> {
    read_sync(env, CACHE, key)
}

/// Stores bytes in the cache.
fn put(env: &mut Folders, key: &str, bytes: &[u8]) -> Result<()> {
    write_sync(env, CACHE, key, bytes)?;
    Ok(())
}

/// Adds the interface of the unit of this name to an object. It is read from the cache.
fn add_interface(env: &mut Folders, name: &str, object: &mut String) -> Result<()> {
    let interface = get(env, name)?;
    let text = str::from_utf8(&interface).unwrap_or("no text");
    writeln!(object, "    {name}: {text}")?;
    Ok(())
}

impl Unit {
    /// Stores the interface, under the unit's name.
    pub(crate) fn store(&self, env: &mut Folders) -> Result<()> {
        put(env, self.name, self.interface.as_bytes())
    }

    /// The key of the unit's object.
    fn object_key(&self, env: &Folders) -> Result<String> {
        Ok(format!(in env.alloc; "{}.o", self.name)?)
    }

    /// Makes the unit's object: here the interfaces that it uses.
    fn make(&self, env: &mut Folders) -> Result<String> {
        let mut object = format!(in env.alloc; "{} uses\n", self.name)?;
        for name in self.uses {
            add_interface(env, name, &mut object)?;
        }
        Ok(object)
    }

    /// Compiles the unit, and stores its object.
    pub(crate) fn compile(&self, env: &mut Folders) -> Result<()> {
        let object = self.make(env)?;
        let key = self.object_key(env)?;
        put(env, key.as_str(), object.as_bytes())
    }

    /// Reads the object, as the thread that compiled the unit stored it.
    pub(crate) fn object(&self, env: &mut Folders) -> Result<Vec<u8>> {
        let key = self.object_key(env)?;
        get(env, key.as_str())
    }
}
