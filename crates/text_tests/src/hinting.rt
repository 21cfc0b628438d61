//! The lines that are told, which words are near to one another, and what is said of statements.

use crate::rows::all_hold;
use crate::spelled::unmarked;
use std::alloc::Global;
use ysay_circles::{circle_sentence, condition_sentence, place_sentence};
use ysay_forms::{count_sentence, form_sentence};
use ysay_names::{name_sentence, prefix_sentence};
use ysay_nodes::{config_sentence, needed_sentence, twice_sentence};
use ysay_pattern::{Stop, pattern_sentence, stop_of};
use ysay_sets::{import_sentence, taken_sentence};
use ysay_slips::slip_sentence;
use ysay_targets::{leafref_sentence, target_sentence};
use ysay_text::{is_near, is_unread, line_sentence, nearest, nearest_word, shown_line};
use ysay_types::{default_sentence, restriction_sentence};
use ytext::parse;

// `WORD|WORD|DISTANCE`: so many edits lead from the first to the second, and no fewer; 3 stands for any more
fn is_apart(row: &str) -> Option<bool> {
    let (first, rest) = row.split_once('|')?;
    let (second, distance) = rest.split_once('|')?;
    let distance = distance.parse::<u8>().ok()?;
    let first = first.as_bytes();
    let second = second.as_bytes();
    let is_enough = distance > 2
        || is_near(distance, first, second) && is_near(distance, second, first);
    let is_needed = distance == 0 || !is_near(distance - 1, first, second);
    Some(is_enough && is_needed)
}

#[test]
fn distances(rt: HostRuntime) {
    let rows = "leaf|leaf|0
||0
|a|1
|ab|2
|abc|3
leaf|laef|1
leaf|lef|1
leaf|leeaf|1
leaf|leag|1
leaf|eaf|1
leaf|leafs|1
container|contaner|1
container|cotnainer|1
container|conatiner|1
container|contianer|1
container|ontaineer|2
container|cnotainre|2
container|contain|2
container|conain|3
abcd|badc|2
abc|cab|2
abc|cba|2
abc|bca|2
ab|ba|1
abc|xyz|3
grouping|gruopings|2
identity|idendity|1
mandatory|manadatroy|2
mandatory|madnatroy|2
é|e|2
é|è|1";
    all_hold(&rt, rt.alloc(), rows, |_, row| is_apart(row));
}

// `WORD|NAME,NAME,..|NEAREST`, with `-` for none
fn is_nearest(alloc: Global, row: &str) -> Option<bool> {
    let (word, rest) = row.split_once('|')?;
    let (names, wanted) = rest.split_once('|')?;
    let names: Vec<&str> = names.split(',').collect(alloc).ok()?;
    Some(nearest(word, &names).unwrap_or("-") == wanted)
}

#[test]
fn names(rt: HostRuntime) {
    let rows = "speed|spend,sped|spend
speed|spond,sped|sped
host|hosts,host|host
host|net:host,port|port
a|b|-
ab|b|b
ab|cd|-
abc|cbd|-
abcd|badc|badc
uplink|host,speed|-
iterface|interface,interfaces|interface
iterfaces|interface,interfaces|interfaces
x||-";
    all_hold(&rt, rt.alloc(), rows, is_nearest);
}

// `WORD|NEAREST`, with `-` for none, or `WORD` alone, which is a keyword that isn't read
fn is_word(row: &str) -> bool {
    match row.split_once('|') {
        Some((word, near)) => !is_unread(word) && nearest_word(word).unwrap_or("-") == near,
        None => is_unread(row) && nearest_word(row) == Some(row),
    }
}

#[test]
fn words(rt: HostRuntime) {
    let rows = "contaner|container
lief|leaf
tpye|type
interface|-
leaf|leaf
mandtory|mandatory
patern|pattern
uss|uses
keys|key
submodul|submodule
base|base
bas|base
identity|identity
idendity|identity
action
anydata
anyxml
argument
belongs-to
deviate
deviation
feature
if-feature
include
input
modifier
must
notification
output
pattern
rpc
submodule
when
yin-element";
    all_hold(&rt, rt.alloc(), rows, |_, row| Some(is_word(row)));
}

const MODULE: &str = "module m {
  contaner a;
  pattern x;
  leaf b;
  leaf c { type binary; }
  interface d;
  leaf e { type string; }
  x:y z;
  type instance-identifier; leef f;
  leaf g { type identityref; }
  leaf h { type instance-identifier; }
  identity i;
  bases j;
}
";

// `LINE|SENTENCE`
fn is_said(alloc: Global, row: &str) -> Option<bool> {
    let (line, wanted) = row.split_once('|')?;
    let line = line.parse::<u32>().ok()?;
    let module = parse(alloc, MODULE.as_bytes()).ok()?;
    Some(line_sentence(alloc, line, &module).ok()?.as_str() == wanted)
}

#[test]
fn sentences(rt: HostRuntime) {
    let rows = "1|module can't stand here.
2|no statement is called contaner; near it: container.
3|pattern is YANG 1.1, and isn't read here.
4|leaf can't stand here.
5|the type binary is YANG 1.1, and isn't read here.
6|no statement is called interface.
7|
8|x:y can't stand here.
9|no statement is called leef; near it: leaf.
10|
11|the type instance-identifier is YANG 1.1, and isn't read here.
12|identity can't stand here.
13|no statement is called bases; near it: base.
14|
15|";
    all_hold(&rt, rt.alloc(), rows, is_said);
}

const PATTERNS: &str = "module m {
  yang-version 1.1; namespace m; prefix m;
  leaf a { type string { pattern 'a(b|[c-e])*'; } }
  leaf b { type string { pattern 'ab(c|d[e-]))+'; } }
  leaf c { type string { pattern 'a'; pattern '[a-z'; pattern '*'; } }
  leaf d { type string { pattern '\\p{IsGreek}'; } }
  leaf e { type string { pattern '[0-9]{2,1}x'; } }
  leaf f { type string { pattern
    '\u{e9}{x}'; } }
}
";

// `LINE|SENTENCE`
fn is_said_of_patterns(alloc: Global, row: &str) -> Option<bool> {
    let (line, wanted) = row.split_once('|')?;
    let line = line.parse::<u32>().ok()?;
    let module = parse(alloc, PATTERNS.as_bytes()).ok()?;
    Some(pattern_sentence(alloc, line, &module).ok()?.as_str() == wanted)
}

#[test]
fn sentences_of_patterns(rt: HostRuntime) {
    let rows = "3|the pattern is too large.
4|character 12 of the pattern can't stand there: )+
5|the pattern ends too soon.
6|character 6 of the pattern can't stand there: Greek}
7|character 10 of the pattern can't stand there: }x
8|character 3 of the pattern can't stand there: x}
9|";
    all_hold(&rt, rt.alloc(), rows, is_said_of_patterns);
}

// `CODE|TEXT|SENTENCE`, with ¶ for a line feed
fn is_said_of_slip(alloc: Global, row: &str) -> Option<bool> {
    let (code, rest) = row.split_once('|')?;
    let (text, wanted) = rest.split_once('|')?;
    let code = code.parse::<u8>().ok()?;
    let text = unmarked(alloc, text).ok()?;
    let said = slip_sentence(alloc, code, text.as_str().as_bytes()).ok()?;
    Some(said.as_str() == wanted)
}

#[test]
fn sentences_of_slips(rt: HostRuntime) {
    let rows = "5|leaf a { type string units s; }|; or { is due before units.
5|a b¶ 'c' { d; }|; or { is due before this string.
5|a { b \"c\" }|; is due before }.
5|a { 'b' c; }|a keyword is due in place of this string.
5|{ }|a keyword is due in place of {.
5|a 'b' + c;|a quoted string is due behind +.
6|a {¶}¶b {¶}|the module ends in line 2; behind it nothing more may stand.
6|a {¶}}|no { is open for this }.
6|a {¶ b {¶  c;|the block that begins in line 2 isn't closed.
6|a {¶ b {¶  c;¶ d {¶ }¶}|a block isn't closed; it may be that of line 2: what begins in it in line 4 is indented no deeper.
6|a {¶\tb {¶\t}¶/* c */ d {¶|the block that begins in line 4 isn't closed.
6|// a|no statement stands there.
6|a b|the text ends before ; or {.
3|a \"b;|
5|a \"b;|";
    all_hold(&rt, rt.alloc(), rows, is_said_of_slip);
}

const NAMING: &str = "module m {
  yang-version 1.1; namespace m;
  prefix m;
  import acme-types { prefix at; }
  typedef size { type uint8; }
  grouping rate { leaf r { type att:vlan-id; } }
  leaf a { type unit16; }
  uses rates;
  leaf b { type at:vlan; }
  leaf c { type m:sise; }
  identity i { base at:kind; }
  leaf d { type size; }
  augment \"/at:x/au:y\" { leaf z { type string; } }
  leaf e { type nothing-alike; }
  leaf f { type longest:of-all; } leaf g { type uint8 { range \"no:prefix\"; } }
  import other { prefix at; }
}
";

const NAMED: &str = "module acme-types {
  prefix t; typedef vlan-id { type uint16; } identity kinds;
  container c { typedef vlan { type uint8; } }
}
";

// `LINE|SENTENCE`
fn is_said_of_prefixes(alloc: Global, row: &str) -> Option<bool> {
    let (line, wanted) = row.split_once('|')?;
    let line = line.parse::<u32>().ok()?;
    let module = parse(alloc, NAMING.as_bytes()).ok()?;
    Some(prefix_sentence(alloc, line, &module).ok()?.as_str() == wanted)
}

#[test]
fn sentences_of_prefixes(rt: HostRuntime) {
    let rows = "5|
6|no import declares the prefix att; near it: at.
7|
9|
13|no import declares the prefix au; near it: at.
15|no import declares the prefix longest.
16|the prefix at is given twice.";
    all_hold(&rt, rt.alloc(), rows, is_said_of_prefixes);
}

fn said_of_name(alloc: Global, line: u32) -> Option<String> {
    let mut modules = Vec::new(alloc);
    modules.push(parse(alloc, NAMED.as_bytes()).ok()?).ok()?;
    modules.push(parse(alloc, NAMING.as_bytes()).ok()?).ok()?;
    name_sentence(alloc, line, &modules, modules.get(1)?).ok()
}

// `LINE|SENTENCE`
fn is_said_of_names(alloc: Global, row: &str) -> Option<bool> {
    let (line, wanted) = row.split_once('|')?;
    let said = said_of_name(alloc, line.parse::<u32>().ok()?)?;
    Some(said.as_str() == wanted)
}

#[test]
fn sentences_of_names(rt: HostRuntime) {
    let rows = "5|
6|no type is called att:vlan-id.
7|no type is called unit16; near it: uint16.
8|no grouping is called rates; near it: rate.
9|no type is called at:vlan.
10|no type is called m:sise; near it: m:size.
11|no identity is called at:kind; near it: at:kinds.
12|
13|
14|no type is called nothing-alike.";
    all_hold(&rt, rt.alloc(), rows, is_said_of_names);
}

const BROKEN: &str = "module m {
  yang-version 1.1; namespace m; prefix m;
  revision 01-05-2024 { description First; }
  leaf hostname { type string; mandatory yes; }
  leaf a;
  leaf b { type string; description a; description b; }
  container;
  list l { key \u{201c}name\u{201d}; config maybe; }
  leaf c { type leafref { path ../x; } }
  leaf-list d { type string { length '1 - 4'; } ordered-by name; }
  x:y { mandatory yes; leaf z; } extension e { status old; type a:; }
  uses g { augment /m:a { leaf b; } }
  augment m:c { container c; }
  rpc q { input text { must a { error-message x; error-message y; } } }
  import n { revision-date 2024-01-01; }
  leaf e { when a; when b; if-feature 'a and'; type string; }
  leaf f { type string; type int8; }
  leaf-list g { type a:b:c; min-elements -1; max-elements 0; status new; }
  typedef h { units x; } leaf i { type decimal64 { fraction-digits 19; } }
  leaf xmlx { type string; default; } leaf j { type enumeration { enum a { value 1.5; } } }
}
";

// `LINE|SENTENCE`
fn is_said_of_forms(alloc: Global, row: &str) -> Option<bool> {
    let (line, wanted) = row.split_once('|')?;
    let line = line.parse::<u32>().ok()?;
    let module = parse(alloc, BROKEN.as_bytes()).ok()?;
    Some(form_sentence(alloc, line, &module).ok()?.as_str() == wanted)
}

#[test]
fn sentences_of_forms(rt: HostRuntime) {
    let rows = "2|
3|revision takes a date as 2024-05-01, not \"01-05-2024\".
4|mandatory takes true or false, not \"yes\".
5|
7|container takes an identifier, and nothing stands there.
8|the argument of key begins with a typographic quote: write \" there and at its end.
9|path takes a path from the top and without predicates, as /p:a/p:b, not \"../x\".
10|length takes numbers and spans as 1..10, with | between them, not \"1 - 4\".
11|
12|augment takes names parted by slashes, as a/b, not \"/m:a\".
13|augment takes a path from the top, as /p:a/p:b, not \"m:c\".
14|input takes nothing, not \"text\".
16|if-feature takes names of features, with and, or, not and parentheses, not \"a and\".
18|type takes a name, not \"a:b:c\".
19|fraction-digits takes a number from 1 to 18, not \"19\".
20|default takes a text, and nothing stands there.
22|";
    all_hold(&rt, rt.alloc(), rows, is_said_of_forms);
}

// `LINE|SENTENCE`
fn is_said_of_counts(alloc: Global, row: &str) -> Option<bool> {
    let (line, wanted) = row.split_once('|')?;
    let line = line.parse::<u32>().ok()?;
    let module = parse(alloc, BROKEN.as_bytes()).ok()?;
    Some(count_sentence(alloc, line, &module).ok()?.as_str() == wanted)
}

#[test]
fn sentences_of_counts(rt: HostRuntime) {
    let rows = "1|
4|
5|leaf lacks a type.
6|leaf has more than one description.
11|
12|leaf lacks a type.
14|must has more than one error-message.
15|import lacks a prefix.
16|leaf has more than one when.
17|leaf has more than one type.
19|typedef lacks a type.
22|";
    all_hold(&rt, rt.alloc(), rows, is_said_of_counts);
}

const BROKEN_OF_YANG_1: &str = "module m {
  namespace m; namespace n; prefix m;
  leaf xmlx { type string; }
  leaf a { if-feature 'a or b'; type string; }
  identity b { base a; base c; }
}
";

// `LINE|SENTENCE|SENTENCE`: of a form, and of a count
fn is_said_of_yang_1(alloc: Global, row: &str) -> Option<bool> {
    let (line, wanted) = row.split_once('|')?;
    let (form, count) = wanted.split_once('|')?;
    let line = line.parse::<u32>().ok()?;
    let module = parse(alloc, BROKEN_OF_YANG_1.as_bytes()).ok()?;
    let of_form = form_sentence(alloc, line, &module).ok()?;
    let of_count = count_sentence(alloc, line, &module).ok()?;
    Some(of_form.as_str() == form && of_count.as_str() == count)
}

#[test]
fn sentences_of_yang_1(rt: HostRuntime) {
    let rows = "1||module has more than one namespace.
2||
3|leaf takes an identifier, not \"xmlx\".|
4|if-feature takes the name of a feature, not \"a or b\".|
5||identity has more than one base.";
    all_hold(&rt, rt.alloc(), rows, is_said_of_yang_1);
}

const TYPES: &str = "module m {
  yang-version 1.1; namespace m; prefix m;
  leaf a { type decimal64 { range \"1..2\"; } }
  leaf b { type string { range \"1..2\"; } }
  leaf c { type uint16 { range \"68..70000\"; } }
  leaf d { type enumeration { enum up; enum down; enum up; } }
  leaf e { type uint8 { range \"10..1\"; } }
  leaf f { type uint8 { range \"min | 0..5\"; } } leaf g { type bits { bit x; bit x; } }
  leaf h { type binary { length \"-1..4\"; } }
  leaf i { type union { type int8 { range \"-128..127\"; } type leafref; } }
  leaf j { type m:size { range \"1..2\"; enum a; enum a; } }
  leaf k { type uint8 { range \"1.5..300\"; } }
  leaf l { type uint8 { range \"300..max\"; description x; m:note y; } }
  leaf m { type int64 { range \"1..9 | 20..9223372036854775808\"; } }
  leaf n { type empty { pattern x; } }
  leaf o { type decimal64 { fraction-digits 2; range \"1..99999999999999999999\"; } }
  leaf p { type string { length \"1..2\"; pattern x; } }
  typedef size { type uint16 { range \"1..4094\"; } } typedef plain { type uint8; }
  leaf q { type size { range \"0..4095\"; } }
  leaf r { type size { range \"10..5\"; } }
  leaf s { type m:plain { range \"0..256\"; } }
  leaf t { type size { range \"min..9 | 4094..max\"; } }
  leaf u { type n:size { range \"0..4095\"; } }
}
";

fn said_of_type(alloc: Global, line: u32) -> Option<String> {
    let mut modules = Vec::new(alloc);
    modules.push(parse(alloc, TYPES.as_bytes()).ok()?).ok()?;
    restriction_sentence(alloc, line, &modules, modules.get(0)?).ok()
}

// `LINE|SENTENCE`
fn is_said_of_types(alloc: Global, row: &str) -> Option<bool> {
    let (line, wanted) = row.split_once('|')?;
    let said = said_of_type(alloc, line.parse::<u32>().ok()?)?;
    Some(said.as_str() == wanted)
}

#[test]
fn sentences_of_types(rt: HostRuntime) {
    let rows = "2|
3|decimal64 lacks fraction-digits.
4|string takes no range.
5|range \"68..70000\" goes beyond uint16, which takes 0 to 65535.
6|the enum \"up\" stands twice.
7|range \"10..1\" isn't made of whole numbers that ascend.
8|range \"min | 0..5\" isn't made of whole numbers that ascend.
9|length \"-1..4\" goes beyond binary, which takes 0 to 18446744073709551615.
10|leafref lacks path.
11|the enum \"a\" stands twice.
12|range \"1.5..300\" isn't made of whole numbers that ascend.
13|range \"300..max\" goes beyond uint8, which takes 0 to 255.
14|range \"1..9 | 20..9223372036854775808\" goes beyond int64, which takes -9223372036854775808 to 9223372036854775807.
15|empty takes no pattern.
16|
17|
18|
19|range \"0..4095\" isn't within the range \"1..4094\" of size.
20|
21|range \"0..256\" goes beyond m:plain, which takes 0 to 255.
22|
23|";
    all_hold(&rt, rt.alloc(), rows, is_said_of_types);
}

const KINDS: &str = "module kinds {
  namespace k; prefix k; import ports { prefix p; }
  typedef kind { type enumeration { enum ethernet; enum loopback; } }
  typedef id { type base { range \"1..4094\"; } default 4095; }
  typedef base { type uint16; }
  typedef far { type p:twice; } typedef round { type round; }
}
";

const PORTS: &str = "module ports {
  namespace p; prefix p;
  import kinds { prefix k; }
  leaf a { type k:kind; default ethernt; }
  leaf b { type k:id; }
  leaf c { type k:id; default 7; }
  leaf d { type uint8; default 0x100; }
  leaf e { type boolean; default yes; }
  leaf f { type string; mandatory true; default x; }
  choice g { default udq; case udp { leaf g1 { type int8; } } leaf tcp { type int8; } }
  choice h { default tcp; leaf tcp { type int8; } }
  leaf-list i { type int8; default 1; default 128; }
  leaf j { type k:far; default x; }
  leaf k { type k:round; default x; }
  container l { typedef twice { type int8; } } typedef twice { type int8; }
  leaf m { type uint8 { range \"5..1\"; } default 7; }
  leaf n { type k:kind { enum loopback; } default ethernet; } leaf o { type boolean; default true; }
}
";

fn said_of_default(alloc: Global, line: u32) -> Option<String> {
    let mut modules = Vec::new(alloc);
    modules.push(parse(alloc, KINDS.as_bytes()).ok()?).ok()?;
    modules.push(parse(alloc, PORTS.as_bytes()).ok()?).ok()?;
    default_sentence(alloc, line, &modules, modules.get(1)?).ok()
}

// `LINE|SENTENCE`
fn is_said_of_defaults(alloc: Global, row: &str) -> Option<bool> {
    let (line, wanted) = row.split_once('|')?;
    let said = said_of_default(alloc, line.parse::<u32>().ok()?)?;
    Some(said.as_str() == wanted)
}

#[test]
fn sentences_of_defaults(rt: HostRuntime) {
    let rows = "3|
4|default \"ethernt\" isn't among the enums of k:kind; near it: ethernet.
5|default \"4095\": its type is k:id, derived from uint16 with range \"1..4094\".
6|
7|default \"0x100\": its type is uint8, which takes 0 to 255.
8|default \"yes\" is neither true nor false.
9|default \"x\" stands beside mandatory true.
10|default \"udq\" names no case that stands here; near it: udp.
11|
12|default \"128\": its type is int8, which takes -128 to 127.
13|
14|
16|
17|default \"ethernet\" isn't among the enums of k:kind.";
    all_hold(&rt, rt.alloc(), rows, is_said_of_defaults);
}

const TARGETS: &str = "module base {
  namespace b; prefix b;
  container top {
    list entry { key name; leaf name { type string; } choice way { case udp { leaf u { type int8; } } } choice other { leaf s { type int8; } } }
  }
  container open { uses all; }
  rpc reset { input { leaf now { type int8; } } }
  grouping rate { container limits { leaf upper { type int8; } } }
  grouping twice { leaf a { type int8; } }
  container inner { grouping twice { leaf b { type int8; } } }
}
";

const CHANGES: &str = "module changes {
  namespace c; prefix c;
  import base { prefix b; } import unnamed { prefix u; }
  augment /b:tob { leaf x { type int8; } }
  augment /b:top/b:entri { leaf x { type int8; } }
  augment /b:top/b:entry/b:way/b:ucp { leaf x { type int8; } }
  augment /b:top/b:entry/b:other/b:s/b:s { leaf x { type int8; } }
  augment /b:open/b:any { leaf x { type int8; } }
  augment /b:reset/b:input { leaf x { type int8; } }
  augment /b:top/c:entri { leaf x { type int8; } }
  augment /c:none { leaf x { type int8; } }
  augment /u:none { leaf x { type int8; } }
  augment /b:top/b:entry { leaf x { type int8; } }
  uses b:rate { refine limits/uper { default 1; }
    augment limit { leaf x { type int8; } }
    refine limits/upper { default 1; } }
  uses b:twice { refine c { default 1; } }
}
";

fn said_of_target(alloc: Global, line: u32) -> Option<String> {
    let mut modules = Vec::new(alloc);
    modules.push(parse(alloc, TARGETS.as_bytes()).ok()?).ok()?;
    modules.push(parse(alloc, CHANGES.as_bytes()).ok()?).ok()?;
    target_sentence(alloc, line, &modules, modules.get(1)?).ok()
}

// `LINE|SENTENCE`
fn is_said_of_targets(alloc: Global, row: &str) -> Option<bool> {
    let (line, wanted) = row.split_once('|')?;
    let said = said_of_target(alloc, line.parse::<u32>().ok()?)?;
    Some(said.as_str() == wanted)
}

#[test]
fn sentences_of_targets(rt: HostRuntime) {
    let rows = "3|
4|nothing called \"b:tob\" stands at the top of the module; near it: b:top.
5|nothing called \"b:entri\" stands below /b:top; near it: b:entry.
6|nothing called \"b:ucp\" stands below /b:top/b:entry/b:way; near it: b:udp.
7|
8|
9|
10|
11|
12|
13|
14|nothing called \"uper\" stands below /limits; near it: upper.
15|nothing called \"limit\" stands at the top of the grouping; near it: limits.
16|
17|";
    all_hold(&rt, rt.alloc(), rows, is_said_of_targets);
}

const LEAFREFS: &str = "module l {
  namespace l; prefix l; import b { prefix b; }
  leaf a { type leafref { path /b:top/b:entry/b:nam; } }
  leaf-list b { type leafref { path /b:top/b:entry; } }
  leaf c { type leafref { path /b:tob/b:x; } }
  leaf d { type leafref { path /b:top/b:entry/b:name; } }
  leaf e { type leafref { path /b:top/b:entry/b:way/b:none; } }
  leaf f { type leafref { path /l:none; } }
  leaf g { type leafref { path /b:top/l:none; } }
  leaf h { type union { type leafref { path /b:none; } } } leaf i { type leafref { path /b:plain/b:of; } }
}
";

const REFERRED: &str = "module b {
  namespace b; prefix b;
  container top { list entry { key name; leaf name { type string; } container way { choice c { leaf d { type int8; } } } } }
  container plain { uses other; leaf off { type int8; } }
  grouping other { leaf of { type int8; } }
}
";

fn said_of_leafref(alloc: Global, line: u32) -> Option<String> {
    let mut modules = Vec::new(alloc);
    modules.push(parse(alloc, REFERRED.as_bytes()).ok()?).ok()?;
    modules.push(parse(alloc, LEAFREFS.as_bytes()).ok()?).ok()?;
    leafref_sentence(alloc, line, &modules, modules.get(1)?).ok()
}

// `LINE|SENTENCE`
fn is_said_of_leafrefs(alloc: Global, row: &str) -> Option<bool> {
    let (line, wanted) = row.split_once('|')?;
    let said = said_of_leafref(alloc, line.parse::<u32>().ok()?)?;
    Some(said.as_str() == wanted)
}

#[test]
fn sentences_of_leafrefs(rt: HostRuntime) {
    let rows = "3|nothing called \"b:nam\" stands below /b:top/b:entry; near it: b:name.
4|/b:top/b:entry is a list, and no leaf.
5|nothing called \"b:tob\" stands at the top of the module; near it: b:top.
6|
7|
8|nothing called \"l:none\" stands at the top of the module.
9|
10|";
    all_hold(&rt, rt.alloc(), rows, is_said_of_leafrefs);
}

const TAKEN: &str = "module taken {
  namespace t; prefix t;
  typedef size { type int8; }
  container inner {
    typedef size { type int8; }
    grouping rate { typedef size { type int8; } }
  }
  grouping rate; feature fast; feature slow;
  identity kind; feature fast;
  identity kind; typedef uint8 { type int8; }
}
";

fn said_of_taken(alloc: Global, line: u32) -> Option<String> {
    let mut modules = Vec::new(alloc);
    modules.push(parse(alloc, TAKEN.as_bytes()).ok()?).ok()?;
    modules.push(parse(alloc, TARGETS.as_bytes()).ok()?).ok()?;
    modules.push(parse(alloc, TAKEN.as_bytes()).ok()?).ok()?;
    taken_sentence(alloc, line, &modules, modules.get(2)?).ok()
}

// `LINE|SENTENCE`
fn is_said_of_taken(alloc: Global, row: &str) -> Option<bool> {
    let (line, wanted) = row.split_once('|')?;
    let said = said_of_taken(alloc, line.parse::<u32>().ok()?)?;
    Some(said.as_str() == wanted)
}

#[test]
fn sentences_of_taken_names(rt: HostRuntime) {
    let rows = "1|two modules are called taken.
2|
3|
5|two typedefs are called size; the other stands in line 3.
6|two groupings are called rate; the other stands in line 8.
8|
9|two features are called fast; the other stands in line 8.
10|two identities are called kind; the other stands in line 9.
11|";
    all_hold(&rt, rt.alloc(), rows, is_said_of_taken);
}

const IMPORTING: &str = "module importing {
  namespace i; prefix i;
  import basis { prefix a; }
  import base { prefix b; revision-date 2024-02-30; }
  import base { prefix c; revision-date 2023-01-31; }
  import changes { prefix d; revision-date 2024-01-01; }
  import importing { prefix e; }
  import unlike-any { prefix f; }
  import dated { prefix g; revision-date 2024-01-31; }
  import dated { prefix h; revision-date 2023-12-31; }
}
";

const DATED: &str = "module dated {
  revision 2023-12-31; revision 2024-01-31; revision 2024-01-30;
}
";

fn said_of_import(alloc: Global, line: u32) -> Option<String> {
    let mut modules = Vec::new(alloc);
    modules.push(parse(alloc, TARGETS.as_bytes()).ok()?).ok()?;
    modules.push(parse(alloc, DATED.as_bytes()).ok()?).ok()?;
    modules.push(parse(alloc, IMPORTING.as_bytes()).ok()?).ok()?;
    import_sentence(alloc, line, &modules, modules.get(2)?).ok()
}

// `LINE|SENTENCE`
fn is_said_of_imports(alloc: Global, row: &str) -> Option<bool> {
    let (line, wanted) = row.split_once('|')?;
    let said = said_of_import(alloc, line.parse::<u32>().ok()?)?;
    Some(said.as_str() == wanted)
}

#[test]
fn sentences_of_imports(rt: HostRuntime) {
    let rows = "2|
3|no module called basis is given; near it: base.
4|base has no revision.
6|no module called changes is given.
7|
8|no module called unlike-any is given.
9|
10|the newest revision of dated is 2024-01-31.";
    all_hold(&rt, rt.alloc(), rows, is_said_of_imports);
}

const DOUBLED: &str = "module doubled {
  namespace d; prefix d;
  container top {
    leaf mtu { type int8; }
    choice way {
      case udp { leaf mtu { type int8; } }
      case tcp { choice port { leaf way { type int8; } } }
      leaf udp { type int8; }
    }
    container inner { leaf mtu { type int8; } leaf mtu { type int8; } }
    anyxml top;
  }
  grouping top { leaf top { type int8; } }
  list top { key a; }
}
";

// `LINE|SENTENCE`
fn is_said_of_doubled(alloc: Global, row: &str) -> Option<bool> {
    let (line, wanted) = row.split_once('|')?;
    let line = line.parse::<u32>().ok()?;
    let module = parse(alloc, DOUBLED.as_bytes()).ok()?;
    Some(twice_sentence(alloc, line, &module).ok()?.as_str() == wanted)
}

#[test]
fn sentences_of_doubled_names(rt: HostRuntime) {
    let rows = "1|
4|two nodes are called mtu; the other stands in line 6.
6|two nodes are called mtu; the other stands in line 4.
7|two nodes are called way; the other stands in line 5.
8|two cases are called udp; the other stands in line 6.
10|
11|
13|
14|two nodes are called top; the other stands in line 3.";
    all_hold(&rt, rt.alloc(), rows, is_said_of_doubled);
}

const ADDED: &str = "module added {
  namespace a; prefix a;
  augment /b:top { leaf note { type int8; mandatory false; }
    container open { presence p; leaf x { type int8; mandatory true; } }
    container shut {
      leaf-list tag { type int8; min-elements 0; }
      choice way { mandatory true; }
    }
    leaf policy { type int8; mandatory true; }
  }
  augment /b:top { container stats { config false; leaf x { type int8; mandatory true; } }
    list entry { key k; min-elements 2; }
  }
  augment /b:way { case udp { leaf x { type int8; mandatory true; } } uses any; }
  container top { leaf y { type int8; mandatory true; } }
}
";

// `LINE|SENTENCE`
fn is_said_of_added(alloc: Global, row: &str) -> Option<bool> {
    let (line, wanted) = row.split_once('|')?;
    let line = line.parse::<u32>().ok()?;
    let module = parse(alloc, ADDED.as_bytes()).ok()?;
    Some(needed_sentence(alloc, line, &module).ok()?.as_str() == wanted)
}

#[test]
fn sentences_of_additions(rt: HostRuntime) {
    let rows = "1|
3|way (line 7) is mandatory.
4|
9|
11|entry (line 12) has min-elements 2.
14|
15|";
    all_hold(&rt, rt.alloc(), rows, is_said_of_added);
}

const STATES: &str = "module states {
  namespace s; prefix s;
  container stats { config false;
    container inner {
      leaf resets { config true; type int8; }
      list sample { leaf a { type int8; } }
    }
  }
  list bare { leaf a { type int8; } }
  list own { config false; leaf a { config true; type int8; } }
  leaf free { config true; type int8; }
  container list { config true; }
}
";

// `LINE|SENTENCE`
fn is_said_of_states(alloc: Global, row: &str) -> Option<bool> {
    let (line, wanted) = row.split_once('|')?;
    let line = line.parse::<u32>().ok()?;
    let module = parse(alloc, STATES.as_bytes()).ok()?;
    Some(config_sentence(alloc, line, &module).ok()?.as_str() == wanted)
}

#[test]
fn sentences_of_configuration(rt: HostRuntime) {
    let rows = "3|
5|config true (line 5) stands below config false of stats (line 3).
6|
9|the list bare is configuration and has no key.
10|config true (line 10) stands below config false of own (line 10).
11|
12|";
    all_hold(&rt, rt.alloc(), rows, is_said_of_states);
}

const CIRCLES: &str = "module m {
  namespace m; prefix m;
  import n { prefix n; }
  import o { prefix o; }
  grouping a { leaf x { type string; }
    container c { uses b; uses n:a; }
  }
  grouping b { uses c; grouping inner { uses a; } }
  grouping c { uses m:d; }
  grouping d { uses a; }
  grouping e { uses a; }
  typedef t { type union { type string;
      type t; } }
  identity i { base j; base n:i; } identity j; identity k { base k; }
  container x { grouping f { uses f; } }
}
";

const CIRCLING: &str = "module n { namespace n; prefix n; import p { prefix p; }
  import m { prefix m; } grouping a { uses m:a; }
}
";

fn said_of_circle(alloc: Global, line: u32) -> Option<String> {
    let mut modules = Vec::new(alloc);
    modules.push(parse(alloc, CIRCLES.as_bytes()).ok()?).ok()?;
    modules.push(parse(alloc, CIRCLING.as_bytes()).ok()?).ok()?;
    circle_sentence(alloc, line, &modules, modules.first()?).ok()
}

// `LINE|SENTENCE`
fn is_said_of_circles(alloc: Global, row: &str) -> Option<bool> {
    let (line, wanted) = row.split_once('|')?;
    let said = said_of_circle(alloc, line.parse::<u32>().ok()?)?;
    Some(said.as_str() == wanted)
}

#[test]
fn sentences_of_circles(rt: HostRuntime) {
    let rows = "3|module m imports n (line 3), which imports m (line 2).
4|
6|grouping a uses b (line 6), which uses c (line 8), which uses d (line 9), which uses a (line 10).
8|grouping b uses c (line 8), which uses d (line 9), which uses a (line 10), which uses b (line 6).
11|
12|
13|typedef t names t (line 13).
14|identity k is based on k (line 14).
15|";
    all_hold(&rt, rt.alloc(), rows, is_said_of_circles);
}

const CONDITIONS: &str = "module m {
  yang-version 1.1; namespace m; prefix m;
  import n { prefix n; }
  feature ssh { if-feature 'not m:tls and log'; }
  feature tls { if-feature log; if-feature n:tls; }
  feature log { if-feature tls; }
  feature own { if-feature own; }
  leaf a { if-feature 'tls or (shs and quick)'; type string; }
  leaf b { if-feature n:quickly; type string; }
  leaf c { if-feature n:futures; type string; }
  leaf d { if-feature o:tls; if-feature 'and'; type string; }
  leaf e { if-feature own; type string; }
}
";

const CONDITIONED: &str =
    "module n { namespace n; prefix n; feature tls; feature future; container c { feature quickly; } }
";

fn said_of_condition(alloc: Global, line: u32) -> Option<String> {
    let mut modules = Vec::new(alloc);
    modules
        .push(parse(alloc, CONDITIONS.as_bytes()).ok()?)
        .ok()?;
    modules
        .push(parse(alloc, CONDITIONED.as_bytes()).ok()?)
        .ok()?;
    condition_sentence(alloc, line, &modules, modules.first()?).ok()
}

// `LINE|SENTENCE`
fn is_said_of_conditions(alloc: Global, row: &str) -> Option<bool> {
    let (line, wanted) = row.split_once('|')?;
    let said = said_of_condition(alloc, line.parse::<u32>().ok()?)?;
    Some(said.as_str() == wanted)
}

#[test]
fn sentences_of_conditions(rt: HostRuntime) {
    let rows = "4|
5|feature tls asks for log (line 5), which asks for tls (line 6).
6|feature log asks for tls (line 6), which asks for log (line 5).
7|feature own asks for own (line 7).
8|no feature is called shs; near it: ssh.
9|no feature is called n:quickly.
10|no feature is called n:futures; near it: n:future.
11|
12|";
    all_hold(&rt, rt.alloc(), rows, is_said_of_conditions);
}

const PLACES: &str = "module m {
  yang-version 1.1; namespace m; prefix m;
  list bare { config false; leaf a { type string; }
    container c { action reset { input { leaf a { type string; } } } }
    list keyed { key k; leaf k { type string; } notification gone; }
    grouping g { action a; list inner {
        notification n; } }
  }
  rpc r { output { container c { notification n; } } }
  notification n { container c { action a; } }
  list l { key k; leaf k { type string; } action a; }
  action top;
}
";

// `LINE|SENTENCE`
fn is_said_of_places(alloc: Global, row: &str) -> Option<bool> {
    let (line, wanted) = row.split_once('|')?;
    let line = line.parse::<u32>().ok()?;
    let module = parse(alloc, PLACES.as_bytes()).ok()?;
    Some(place_sentence(alloc, line, &module).ok()?.as_str() == wanted)
}

#[test]
fn sentences_of_places(rt: HostRuntime) {
    let rows = "3|
4|action reset (line 4) stands below list bare (line 3), which has no key.
5|notification gone (line 5) stands below list bare (line 3), which has no key.
6|
7|notification n (line 7) stands below list inner (line 6), which has no key.
9|notification n (line 9) stands below rpc r (line 9).
10|action a (line 10) stands below notification n (line 10).
11|
12|";
    all_hold(&rt, rt.alloc(), rows, is_said_of_places);
}

// `PATTERN STOP`: a number, `end` or `none`
fn stops_so(alloc: Global, row: &str) -> Option<bool> {
    let (pattern, wanted) = row.split_once(' ')?;
    let characters: Vec<char> = pattern.chars().collect(alloc).ok()?;
    let wanted = match wanted {
        "none" => None,
        "end" => Some(Stop::TooSoon),
        number => Some(Stop::At(number.parse::<usize>().ok()?)),
    };
    Some(stop_of(alloc, &characters).ok()? == wanted)
}

#[test]
fn stops(rt: HostRuntime) {
    let rows = "a none
a) 2
(a end
[z-a] 4
\\q 2
a{2,1} 6
a{3 end
** 1";
    all_hold(&rt, rt.alloc(), rows, stops_so);
}

// Whether the line of a number is shown so.
fn is_shown(alloc: Global, number: u32, text: &[u8], wanted: &str) -> Option<bool> {
    Some(shown_line(alloc, number, text).ok()?.as_str() == wanted)
}

// `NUMBER|LINE`
fn is_line(alloc: Global, row: &str) -> Option<bool> {
    let text = b"module m {\r\n \t leaf b;\n\n  z\x1b[31m\xff\n\xc3\xa9\tx\n\xe2\x80\xae\nend";
    let (number, wanted) = row.split_once('|')?;
    is_shown(alloc, number.parse::<u32>().ok()?, text, wanted)
}

#[test]
fn lines(rt: HostRuntime) {
    let rows = "1|module m {
2|leaf b;
3|
4|z\\x1b[31m\\xff
5|é\tx
6|\\xe2\\x80\\xae
7|end
8|
4294967295|";
    all_hold(&rt, rt.alloc(), rows, is_line);
}

#[test]
fn long_lines(rt: HostRuntime) {
    let row =
        "0123456789012345678901234567890123456789012345678901234567890123456789012345678901234567890123456789";
    let longer =
        "0123456789012345678901234567890123456789012345678901234567890123456789012345678901234567890123456789é";
    let cut =
        "0123456789012345678901234567890123456789012345678901234567890123456789012345678901234567890123456789 ..";
    assert!(rt; is_shown(rt.alloc(), 1, row.as_bytes(), row) == Some(true));
    assert!(rt; is_shown(rt.alloc(), 1, longer.as_bytes(), cut) == Some(true));
}
