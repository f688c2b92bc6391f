//! What a ring file is refused for, as a change of one or two of its lines.
//!
//! Cases stand in a text, a line each, since the proof of a function costs more with each literal.
use super::{answers, says};
use std::process::Abort;

const KEEP: (usize, &str) = (99, "");

/// The two parts of a case's line; the second is empty if there is none.
fn parted(case: &str) -> (&str, &str) {
    case.split_once(" | ").unwrap_or((case, ""))
}

/// A number of a case; 99 is past the file's last line.
fn number(word: &str) -> usize {
    word.parse::<usize>().unwrap_or(99)
}

/// Expects the file to be refused for a key in these words if that line is replaced.
fn refuses(rt: &(impl AllocGlobal + Abort), edit: (usize, &str), place: &str, words: &str) {
    let wanted = format!(in rt.alloc(); "{place} {words}").expect(rt, "memory");
    answers(rt, edit, KEEP, wanted.as_str());
}

/// Expects the refusal of a case, `LINE | ITS NEW TEXT | KEY`, in these words.
fn refuses_case(rt: &(impl AllocGlobal + Abort), case: &str, words: &str) {
    let (line, rest) = parted(case);
    let (text, place) = parted(rest);
    refuses(rt, (number(line), text), place, words);
}

fn refuses_each(rt: &(impl AllocGlobal + Abort), cases: &str, words: &str) {
    for case in cases.lines() {
        refuses_case(rt, case, words);
    }
}

/// The line that is left empty, and the key that is then missing.
const MISSING: &str = "0 |  | version
1 |  | home
2 |  | database
3 |  | regions
5 |  | node[1].id
10 |  | node[2].id
11 |  | node[2].region
12 |  | node[2].kind
13 |  | node[2].uuid
16 |  | client[1].id
17 |  | client[1].address
19 |  | table[1].name
20 |  | table[1].columns
23 |  | table[2].columns
";

#[test]
fn a_needed_key_is_missing(rt: HostRuntime) {
    refuses_each(&rt, MISSING, "is missing");
    let bare = "version = 1\nhome = \"a\"\ndatabase = \"d\"\nregions = []\n";
    says(&rt, bare.as_bytes(), "node is missing");
}

/// The line, what stands in its place, and the least unknown key.
const UNKNOWN: &str = "1 | homes = \"east\" | homes
3 | zone = 1%abc = 1%regions = [\"east\"] | abc
3 | \"a b\" = 1%zone = 1 | a b
21 | [[nodes]] | nodes
12 | color = \"red\" | node[2].color
12 | kind = \"full\"%size = 1%Color = 1 | node[2].Color
17 | address = \"x\"%port = 1 | client[1].port
20 | columns = []%column = 1 | table[1].column
22 | name = \"u\"%rows = 1 | table[2].rows
";

#[test]
fn the_least_unknown_key_is_named(rt: HostRuntime) {
    refuses_each(&rt, UNKNOWN, "is not known");
}

/// The line, what stands in its place, and the key whose value is then out of range.
const TOP: &str = "0 | version = 2 | version
0 | version = \"1\" | version
0 | version = 1.0 | version
1 | home = \"\" | home
1 | home = \"e-ast\" | home
1 | home = 7 | home
2 | database = \"\u{e9}\" | database
3 | regions = \"east\" | regions
3 | regions = [\"east\", \"we st\"] | regions
3 | regions = [\"east\", 1] | regions
";

/// The same of the keys of nodes, clients and tables.
const IN_TABLES: &str = "10 | id = 0 | node[2].id
10 | id = 65536 | node[2].id
10 | id = -1 | node[2].id
10 | id = \"2\" | node[2].id
11 | region = \"\" | node[2].region
12 | kind = \"Full\" | node[2].kind
12 | kind = true | node[2].kind
13 | uuid = \"3e11fa47\" | node[2].uuid
13 | uuid = 3 | node[2].uuid
14 | address = \"\" | node[2].address
16 | id = 65535 | client[1].id
16 | id = 4294967296 | client[1].id
17 | address = [] | client[1].address
19 | name = \"t t\" | table[1].name
20 | columns = [\"id\"] | table[1].columns
20 | columns = [\"id Int\"] | table[1].columns
20 | columns = [\"id  int\"] | table[1].columns
20 | columns = [\"id int \"] | table[1].columns
20 | columns = [\"id text\"] | table[1].columns
20 | columns = [\"id text 0\"] | table[1].columns
20 | columns = [\"id text 020\"] | table[1].columns
20 | columns = [\"id text +20\"] | table[1].columns
20 | columns = [\"id text 16001\"] | table[1].columns
20 | columns = [\"id text 99999999\"] | table[1].columns
20 | columns = [[\"id int\"]] | table[1].columns
23 | columns = [\"id int\", \"a.b int\"] | table[2].columns
";

#[test]
fn a_value_is_out_of_range(rt: HostRuntime) {
    refuses_each(&rt, TOP, "has a value outside its range");
    refuses_each(&rt, IN_TABLES, "has a value outside its range");
}

/// What stands behind the four keys at the top, and what the file is then refused for.
const ARRAYS: &str = "node = 1 | node has a value outside its range
[node]%id = 1 | node has a value outside its range
node = [{id = 1}, 2] | node has a value outside its range
node = []%client = \"c\" | client has a value outside its range
node = [{}]%table = [[]] | table has a value outside its range
node = [{}] | node[1].id is missing
";

fn refuses_array(rt: &(impl AllocGlobal + Abort), case: &str) {
    let head = "version = 1%home = \"east\"%database = \"app\"%regions = [\"east\"]%";
    let (tail, wanted) = parted(case);
    let text = format!(in rt.alloc(); "{head}{tail}%").expect(rt, "memory");
    super::says_lines(rt, text.as_str(), wanted);
}

#[test]
fn an_array_of_tables_is_something_else(rt: HostRuntime) {
    for case in ARRAYS.lines() {
        refuses_array(&rt, case);
    }
}

/// Two lines with what stands in their places, and what the file is then refused for.
const TWO: &str = "0 |  | 1 | homes = 1 | homes is not known
1 | home = 1 | 2 |  | database is missing
1 |  | 2 |  | home is missing
2 | database = 1 | 1 | home = 1 | home has a value outside its range
3 | regions = 1 | 5 | ids = 1 | regions has a value outside its range
10 |  | 5 | id = 0 | node[1].id has a value outside its range
13 |  | 10 | id = 0 | node[2].uuid is missing
12 | kind = 1 | 13 | port = 1 | node[2].port is not known
17 |  | 14 | address = 1 | node[2].address has a value outside its range
19 |  | 16 | id = 1 | client[1].id has a value outside its range
20 | columns = 1 | 22 |  | table[1].columns has a value outside its range
1 | home = \"west\" | 23 | columns = 1 | table[2].columns has a value outside its range
1 | x =  | 2 |  | not TOML
";

/// Expects the refusal of a case, `LINE | TEXT | LINE | TEXT | REFUSAL`, whichever comes first.
fn refuses_two(rt: &(impl AllocGlobal + Abort), case: &str) {
    let (first, rest) = parted(case);
    let (first_text, rest) = parted(rest);
    let (second, rest) = parted(rest);
    let (second_text, wanted) = parted(rest);
    let (one, two) = ((number(first), first_text), (number(second), second_text));
    answers(rt, one, two, wanted);
    answers(rt, two, one, wanted);
}

#[test]
fn of_two_faults_the_first_in_order_is_named(rt: HostRuntime) {
    for case in TWO.lines() {
        refuses_two(&rt, case);
    }
}

/// Texts that are no TOML.
const NO_TOML: &str = "x =
home
version = 1%version = 1
version = 99999999999999999999
";

#[test]
fn what_is_no_toml(rt: HostRuntime) {
    for case in NO_TOML.lines() {
        super::says_lines(&rt, case, "not TOML");
    }
    says(&rt, b"home = \"\xe9\"", "not TOML");
    says(&rt, b"# \xff\n", "not TOML");
    says(&rt, b"", "version is missing");
}
