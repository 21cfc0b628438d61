//! What is said of each refused document.

use crate::modules::host_schema;
use crate::rows::{all_hold, all_parts_hold};
use std::alloc::Global;
use yinst_tree::{DocFault, read};
use ysay_refusal::said_of_refusal;
use ysay_refusals::said_of_others;

// `DOCUMENT => SENTENCE`, with no sentence where nothing is said.
fn is_said(alloc: Global, row: &str) -> Option<bool> {
    let (document, sentence) = row.split_once(" => ")?;
    let schema = host_schema(alloc)?;
    let bytes = document.as_bytes();
    match read(alloc, &schema, bytes) {
        Err(DocFault::Refused { code, place }) => {
            let said = said_of_refusal(alloc, &schema, bytes, code, &place).ok()?;
            Some(said.as_str() == sentence)
        }
        _ => None,
    }
}

const ROWS: &str =
    r#"{"net:hots":{}} => nothing called "net:hots" may stand here; near it: net:host.
{"other:colour":{}} => nothing called "other:colour" may stand here.
{"example-net:hots":{}} => nothing called "example-net:hots" may stand here; near it: net:host.
{"hots":{}} => nothing called "hots" may stand here; near it: net:host.
{"net:host ":{}} => nothing called "net:host " may stand here; near it: net:host.
{"net:\u001bost":{}} => nothing called "net:\x1bost" may stand here; near it: net:host.
{"xxxxxxxxxxxxxxxxxxxxxxxxxxxxxxxxxxxxxxxxxxxxxxxxxxxxxxxxxxxxxxxxxxxxxxxxxxxxxxxxxxxxxxxxxxxxxxxxxxxxx":{}} => nothing called "xxxxxxxxxxxxxxxxxxxxxxxxxxxxxxxxxxxxxxxxxxxxxxxxxxxxxxxxxxxxxxxxxxxxxxxxxxxxxxxxxxxxxxxxxxxxxxxxxxxx .." may stand here.
{"":{}} => nothing called "" may stand here.
{"net:host":{"nmae":"x"}} => nothing called "nmae" may stand here; near it: name.
{"net:host":{"net:nmae":"x"}} => nothing called "net:nmae" may stand here; near it: name.
{"net:host":{"rat":1}} => nothing called "rat" may stand here; near it: rate.
{"net:host":{"how":1}} => nothing called "how" may stand here.
{"net:host":{"b":1,"a":1,"name":"x"}} => nothing called "a" may stand here.
{"net:host":{"port":[{"id":1},{"id":2,"sped":1}]}} => nothing called "sped" may stand here; near it: speed.
{"net:host":{"port":[{"id":1},{"id":2,"labl":1}]}} => nothing called "labl" may stand here; near it: added:label.
{"net:host":{"port":[{"id":1},{"id":2,"state":{"pu":true}}]}} => nothing called "pu" may stand here; near it: up.
{"net:host":{"port":[{"id":1,"added:more":{"dept":1}}]}} => nothing called "dept" may stand here; near it: depth.
{"host":{}} => here "host" is written net:host.
{"net:host":{"net:name":"a"}} => here "net:name" is written name.
{"net:host":{"net:rate":1}} => here "net:rate" is written rate.
{"net:host":{"port":[{"id":1},{"id":2,"label":"x"}]}} => here "label" is written added:label.
{"net:host":{"port":[{"id":1,"added:more":{"added:depth":1}}]}} => here "added:depth" is written depth.
{"net:host":7} => a number stands where an object is due.
{"net:host":[]} => an array stands where an object is due.
{"net:host":null} => null stands where an object is due.
{"net:link":{}} => an object stands where an array is due.
{"net:link":[{"id":1},"x"]} => a text stands where an object is due.
{"net:host":{"tag":"a"}} => a text stands where an array is due.
{"net:host":{"tag":["a",null]}} => null stands where an item's value is due.
{"net:host":{"name":{}}} => an object stands where a leaf's value is due.
{"net:host":{"name":["a"]}} => an array stands where a leaf's value is due.
{"net:host":{"port":[{"id":1},{"id":2,"state":true}]}} => true stands where an object is due.
{"net:host":{"port":[{"id":1},{"id":2,"state":{"up":null}}]}} => null stands where a leaf's value is due.
{"net:host":{"port":[{"id":1},false]}} => false stands where an object is due.
{"net:host":{"port":[{"id":1.5}]}} => a number with a point or an exponent, or beyond 64 bits, isn't a value of uint8: it takes an integer without quotes in 0..255.
{"net:host":{"port":[{"id":1,"speed":18446744073709551616}]}} => a number with a point or an exponent, or beyond 64 bits, isn't a value of uint16: it takes an integer without quotes in 0..65535.
{"net:host":{"name":1e2}} => a number with a point or an exponent, or beyond 64 bits, isn't a value of string: it takes a text in quotes.
{"net:host":{"tag":["a",-0.5]}} => a number with a point or an exponent, or beyond 64 bits, isn't a value of string: it takes a text in quotes.
{"net:host":{"name":"a",}} => no comma stands behind the last member.
{"net:host":{"tag":["a" , ]}} => no comma stands behind the last item.
{"net:host":{/**/}} => JSON has no comments.
{"net:host":{}} // all => JSON has no comments.
{'net:host':{}} => JSON wants double quotes.
{"net:host":{"name":'a'}} => JSON wants double quotes.
{ => the document ends before all brackets are closed.
{"net:host":{"name":"a\"}} => the document ends before all brackets are closed.
{"net:host":{"tag":["a"} => the document ends before all brackets are closed.
{"net:host":{"tag" ["a",]}} => 
{"net:host":{"name":http://a,}} => 
{"net:host":{}}} => 
{"net:host":{"name":/a}} => 
[] => 
"#;

#[test]
fn refusals_explained(rt: HostRuntime) {
    all_hold(&rt, rt.alloc(), ROWS, is_said);
}

// What is said of all but the first refusal of a document.
fn said_of_rest(alloc: Global, document: &str) -> Option<String> {
    let schema = host_schema(alloc)?;
    let bytes = document.as_bytes();
    match read(alloc, &schema, bytes) {
        Err(DocFault::Refused { code, place }) => {
            said_of_others(alloc, &schema, bytes, code, &place).ok()
        }
        _ => None,
    }
}

// The document, and behind its line what is said.
fn are_said(alloc: Global, row: &str) -> Option<bool> {
    let (document, lines) = row.split_once("\n")?;
    let said = said_of_rest(alloc, document)?;
    Some(said.as_str() == lines)
}

const OTHERS: &str = r#"{"net:host":7}
==
{"net:host":{"b":1,"a":1,"name":"x"}}
  J3 /net:host: nothing called "b" may stand here.
==
{"net:hots":{},"net:host":{"name":{},"tag":"a"}}
  J5 /net:host/tag: a text stands where an array is due.
  J3 /: nothing called "net:hots" may stand here; near it: net:host.
==
{"net:host":{"port":[{"id":1.5},{"id":2,"label":"x"},false]}}
  J4 /net:host/port[2]: here "label" is written added:label.
  J5 /net:host/port[3]: false stands where an object is due.
==
{"net:host":{"name":1.5,"rate":2.5}}
  J6 /net:host/rate: a number with a point or an exponent, or beyond 64 bits, isn't a value of uint8: it takes an integer without quotes in 0..255.
==
{"net:host":{"net:name":[],"name":[]}}
  J4 /net:host: here "net:name" is written name.
==
{"net:host":{"tag":[{},["a"],{"a":1}]}}
  J5 /net:host/tag[2]: an array stands where an item's value is due.
  J5 /net:host/tag[3]: an object stands where an item's value is due.
==
{"net:link":{"x":{"y":1}}}
==
{
==
[]
"#;

#[test]
fn other_refusals_explained(rt: HostRuntime) {
    all_parts_hold(&rt, rt.alloc(), OTHERS, are_said);
}

// The document, and behind its line the end of what is said.
fn end_so(alloc: Global, row: &str) -> Option<bool> {
    let (document, lines) = row.split_once("\n")?;
    let said = said_of_rest(alloc, document)?;
    Some(said.as_str().ends_with(lines))
}

const ENDS: &str = r#"{"net:link":[7,7,7]}
  J5 /net:link[2]: a number stands where an object is due.
  J5 /net:link[3]: a number stands where an object is due.
==
{"net:link":[7,7,7,7,7,7,7,7,7,7,7,7,7,7,7,7,7,7,7,7,7,7,7,7,7,7,7,7,7,7,7,7,7,7,7,7,7,7,7,7,7,7,7,7,7,7,7,7,7,7,7,7,7,7,7,7,7,7,7,7,7,7,7,7,7,7,7,7,7,7,7,7,7,7,7,7,7,7,7,7,7,7,7,7,7,7,7,7,7,7,7,7,7,7,7,7,7,7,7,7,7]}
/net:link[101]: a number stands where an object is due.
==
{"net:link":[7,7,7,7,7,7,7,7,7,7,7,7,7,7,7,7,7,7,7,7,7,7,7,7,7,7,7,7,7,7,7,7,7,7,7,7,7,7,7,7,7,7,7,7,7,7,7,7,7,7,7,7,7,7,7,7,7,7,7,7,7,7,7,7,7,7,7,7,7,7,7,7,7,7,7,7,7,7,7,7,7,7,7,7,7,7,7,7,7,7,7,7,7,7,7,7,7,7,7,7,7,7]}
/net:link[101]: a number stands where an object is due.
  and 1 more.
==
{"net:link":[7,7,7,7,7,7,7,7,7,7,7,7,7,7,7,7,7,7,7,7,7,7,7,7,7,7,7,7,7,7,7,7,7,7,7,7,7,7,7,7,7,7,7,7,7,7,7,7,7,7,7,7,7,7,7,7,7,7,7,7,7,7,7,7,7,7,7,7,7,7,7,7,7,7,7,7,7,7,7,7,7,7,7,7,7,7,7,7,7,7,7,7,7,7,7,7,7,7,7,7,7,7,7,7,7,7,7,7,7,7,7,7,7,7]}
/net:link[101]: a number stands where an object is due.
  and 13 more.
"#;

#[test]
fn a_hundred_others_have_lines(rt: HostRuntime) {
    all_parts_hold(&rt, rt.alloc(), ENDS, end_so);
}
