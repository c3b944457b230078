//! The texts of the setups that the rows are under.

/// The setup that denies native access and states nothing else.
pub const CLOSED: &str = "version = 1
illegal_native_access = \"deny\"
";

/// What a setup of two modules states after its mode. Its classes are 15 to 17.
pub const TWO_MODULES: &str = "enable_native_access = [\"app\"]
[[class]]
name = \"app/Main\"
module = \"app\"
fields = [{ name = \"count\", type = \"I\" }, { name = \"next\", type = \"Lapp/Main;\" }]
natives = [{ name = \"run\", type = \"()V\" }]
[[class]]
name = \"lib/Tool\"
module = \"lib\"
natives = [{ name = \"go\", type = \"()V\" }]
[[class]]
name = \"app/Fault\"
module = \"app\"
throwable = true
";

/// What a setup of version 2 grants the same modules, after its mode.
pub const GRANTS: &str = "[[grant]]
module = \"app\"
operations = [\"register\", \"link\"]
[[grant]]
module = \"lib\"
operations = [\"load\"]
";
