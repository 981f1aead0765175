// A JSON object under way.
ghost use Rattle.std.specs.Prelude.{◌≡◌, OnOk, IfOk};
ghost use Rattle.serde_json.specs.Data.{number, unsigned, string, object, no_members, put as with_member};
ghost use Rattle.serde_json.specs.View.{view};
ghost use Rattle.rst_report_json.specs.JsonReports.{name_text};
ghost use Rattle.rst_report_json.specs.Objects.{members};

use rst_outside::NoMemory;
use serde_json::{Map, Value};
use std::alloc::Global;

// An object that is written member by member.
#[derive(Drop)]
pub(crate) struct Object {
    alloc: Global,
    members: Map<String, Value>,
}

impl Object {
    // The object without members.
    pub(crate) fn new(alloc: Global) -> Object
        ensures { members result ≡ no_members }
    {
        Object {
            alloc,
            members: Map::new(alloc),
        }
    }

    // Sets a member.
    pub(crate) fn put(&mut self, name: &str, value: Value) -> Result<(), NoMemory>
        ensures { OnOk result (members self.new ≡ with_member name.now (view value) (members self.old)) }
    {
        serde_json::put(&mut self.members, self.alloc, name, value)?;
        Ok(())
    }

    // Sets a member to a number.
    pub(crate) fn put_number(&mut self, name: &str, value: u64) -> Result<(), NoMemory>
        ensures { OnOk result (members self.new ≡ with_member name.now (number (unsigned value)) (members self.old)) }
    {
        self.put(name, Value::from(value))
    }

    // Sets a member to a text.
    pub(crate) fn put_text(&mut self, name: &str, text: &str) -> Result<(), NoMemory>
        ensures { OnOk result (members self.new ≡ with_member name.now (string text.now) (members self.old)) }
    {
        let value = Value::try_from_str(self.alloc, text)?;
        self.put(name, value)
    }

    // Sets a member to a name of the design.
    pub(crate) fn put_name(&mut self, name: &str, of: &[u8]) -> Result<(), NoMemory>
        ensures { OnOk result (members self.new ≡ with_member name.now (string (name_text of.now)) (members self.old)) }
    {
        let text = String::from_utf8_lossy(self.alloc, of)?;
        self.put(name, Value::from(text))
    }

    // Sets the member that a name of the design names.
    pub(crate) fn put_named(&mut self, of: &[u8], value: Value) -> Result<(), NoMemory>
        ensures { OnOk result (members self.new ≡ with_member (name_text of.now) (view value) (members self.old)) }
    {
        let name = String::from_utf8_lossy(self.alloc, of)?;
        self.put(name.as_str(), value)
    }

    // The whole object.
    pub(crate) fn finish(self) -> Value
        ensures { view result ≡ object (members self) }
    {
        Value::from(self.members)
    }
}
