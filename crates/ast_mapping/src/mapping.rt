// From the node table to a policy, or to a refusal of 7 to 16: the four steps of SPEC.md, over the nodes' numbers.
ghost use Rattle.std.specs.Prelude.{◌≡◌, ◌≤◌};
ghost use Rattle.cel_text.specs.Tree.{object};
ghost use Rattle.cel_text.specs.Table.{kind_number};
ghost use Rattle.cel_policy.specs.Names.{ValidationArgs, Certification, RequestCertification};
ghost use Rattle.cel_policy.specs.Mapping.{and_then, typed, lookup, exactly_one, request_lists, request_part, list_of, response_part, certification_parts, validation_args, mapping};
ghost use Rattle.ast_mapping.specs.View.{node_at, children, Held};
ghost use Rattle.ast_mapping.specs.Steps.{expected_kind, refusal_told, kind_refused, fields_used, node_of, typed_of, found_as, given_as, only_as, Checked, ListChecked, Listing};
ghost use Rattle.ast_mapping.specs.Steps.{RequestFound, Requested, HeadersFound, Responded, certified_as, Maps};

use crate::name;
use crate::name::{
    CERTIFICATION, CERTIFICATION_OBJECT, CERTIFIED_QUERY_PARAMETERS, CERTIFIED_REQUEST_HEADERS,
    CERTIFIED_RESPONSE_HEADERS, DEFAULT_CERTIFICATION, HEADERS, NO_CERTIFICATION,
    NO_REQUEST_CERTIFICATION, REQUEST_CERTIFICATION, REQUEST_CERTIFICATION_OBJECT,
    RESPONSE_CERTIFICATION, RESPONSE_CERTIFICATION_OBJECT, RESPONSE_HEADER_EXCLUSIONS,
    RESPONSE_HEADER_LIST, VALIDATION_ARGS,
};
use crate::tree::TreeNode;
use parser::row::read_row;
use parser::{
    ARRAY, EXTRANEOUS_REQUEST_CERTIFICATION_PROPERTY, EXTRANEOUS_RESPONSE_CERTIFICATION_PROPERTY,
    EXTRANEOUS_VALIDATION_ARGS_PROPERTY, FUNCTION, MISSING_FUNCTION_PARAMETER,
    MISSING_OBJECT_PROPERTY, MISSING_REQUEST_CERTIFICATION_PROPERTY,
    MISSING_RESPONSE_CERTIFICATION_PROPERTY, MISSING_VALIDATION_ARGS_PROPERTY, Node, OBJECT,
    STRING, UNEXPECTED_NODE_NAME, UNEXPECTED_NODE_TYPE,
};

// A refusal of 7 to 16: its number, the expected name and kind, and the node. Numbers and no enum: SPEC.md's, as the answer has them, and matched by ranges.
#[derive(Clone, Copy)]
pub(crate) struct Refusal {
    pub refusal: u32,
    pub name: u32,
    pub kind: u32,
    pub node: Node,
}

// Which of two is there, where exactly one should be. No Result: neither of the two is a refusal.
#[derive(Clone, Copy)]
pub(crate) enum Only<T> {
    First(T),
    Second(T),
}

// The request part: its two lists of strings.
#[derive(Clone, Copy)]
pub(crate) struct Request {
    pub headers: Node,
    pub query: Node,
}

// The kind of the response part's list.
#[derive(Clone, Copy)]
pub(crate) enum ListKind {
    Inclusions,
    Exclusions,
}

// The response part: its list of strings.
#[derive(Clone, Copy)]
pub(crate) struct Response {
    pub kind: ListKind,
    pub list: Node,
}

// A policy, by the nodes of its lists of strings.
#[derive(Clone, Copy)]
pub(crate) enum Mapped {
    Skip,
    ResponseOnly(Response),
    Full(Request, Response),
}

// The kind that a name expects: a function, the lists of strings, and otherwise an object.
// By numbers and ranges: a form that was asked for (docs/DECISIONS.md).
fn expected_kind(name: u32) -> u32
    ensures { result ≡ kind_number (expected_kind name) }
{
    match name {
        DEFAULT_CERTIFICATION => FUNCTION,
        CERTIFIED_REQUEST_HEADERS..=CERTIFIED_QUERY_PARAMETERS => ARRAY,
        CERTIFIED_RESPONSE_HEADERS..=RESPONSE_HEADER_EXCLUSIONS => ARRAY,
        _ => OBJECT,
    }
}

// The fields that a refusal uses; the others are 0. By numbers and ranges: a form that was asked for (docs/DECISIONS.md).
fn refused(refusal: u32, name: u32, node: Node) -> Refusal
    ensures { refusal_told result ≡ fields_used refusal name node.0 }
{
    match refusal {
        UNEXPECTED_NODE_TYPE => unexpected_type(name, expected_kind(name), node),
        UNEXPECTED_NODE_NAME..=MISSING_OBJECT_PROPERTY => Refusal {
            refusal,
            name,
            kind: 0,
            node,
        },
        _ => Refusal {
            refusal,
            name: 0,
            kind: 0,
            node,
        },
    }
}

// A node that is not of the kind that was expected.
fn unexpected_type(name: u32, kind: u32, node: Node) -> Refusal
    ensures { refusal_told result ≡ kind_refused name kind node.0 }
{
    Refusal {
        refusal: UNEXPECTED_NODE_TYPE,
        name,
        kind,
        node,
    }
}

// A node with this name, and of the kind that it expects. Its kind comes before its name.
fn validate_node(node: &TreeNode, name: u32) -> Result<(), Refusal>
    ensures { Checked node.now name result }
{
    let row = node.row();
    if row.kind != expected_kind(name) {
        return Err(refused(UNEXPECTED_NODE_TYPE, name, node.number));
    }
    if !name::is_name(node.part(row.from, row.to), name) {
        return Err(refused(UNEXPECTED_NODE_NAME, name, node.number));
    }
    Ok(())
}

// An array of strings. As long as its elements are strings, their numbers follow one another.
fn validate_string_array(list: &TreeNode, name: u32) -> Result<(), Refusal>
    ensures { ListChecked list.now name result }
{
    let row = list.row();
    if row.kind != ARRAY {
        return Err(unexpected_type(name, ARRAY, list.number));
    }
    for next in list.number.0 + 1..row.past.0 {
        let element = Node(next);
        if read_row(list.table, element).kind != STRING {
            return Err(unexpected_type(name, STRING, element));
        }
    }
    Ok(())
}

// One of two, in this object: else `both`, or `neither`.
fn exactly_one<T: Copy>(
    first: Option<T>,
    second: Option<T>,
    both: u32,
    neither: u32,
    object: Node,
) -> Result<Only<T>, Refusal>
    requires { (11 ≤ both) × (11 ≤ neither) }
    ensures { given_as (only_as (λ a. a)) result ≡ exactly_one both neither object.0 (found_as (λ a. a) first) (found_as (λ a. a) second) }
{
    match (first, second) {
        (Some(_), Some(_)) => Err(refused(both, 0, object)),
        (Some(one), None) => Ok(Only::First(one)),
        (None, Some(one)) => Ok(Only::Second(one)),
        (None, None) => Err(refused(neither, 0, object)),
    }
}

// The list of strings at this key of the object.
fn string_list(object: &TreeNode, name: u32) -> Result<Node, Refusal>
    ensures { Listing object.now name result }
{
    let Some(list) = object.lookup(name) else {
        return Err(refused(MISSING_OBJECT_PROPERTY, name, object.number));
    };
    validate_string_array(&list, name)?;
    Ok(list.number)
}

// An object 8 with its two lists.
fn request_lists(request: &TreeNode) -> Result<Request, Refusal>
    ensures { RequestFound request.now result (and_then (typed object RequestCertification (node_of request.now)) request_lists) }
{
    validate_node(request, REQUEST_CERTIFICATION_OBJECT)?;
    let headers = string_list(request, CERTIFIED_REQUEST_HEADERS)?;
    let query = string_list(request, CERTIFIED_QUERY_PARAMETERS)?;
    Ok(Request { headers, query })
}

// The request part of an object 5, where it has one.
fn validate_request_certification(certification: &TreeNode) -> Result<Option<Request>, Refusal>
    ensures { Requested certification.now result (request_part (typed_of certification.now)) }
{
    let only = exactly_one(
        certification.lookup(NO_REQUEST_CERTIFICATION),
        certification.lookup(REQUEST_CERTIFICATION),
        EXTRANEOUS_REQUEST_CERTIFICATION_PROPERTY,
        MISSING_REQUEST_CERTIFICATION_PROPERTY,
        certification.number,
    )?;
    match only {
        Only::First(_) => Ok(None),
        Only::Second(request) => Ok(Some(request_lists(&request)?)),
    }
}

// The strings under key `headers` of the list object at this key, where both keys are present.
fn response_headers(object: &TreeNode, name: u32) -> Result<Option<Node>, Refusal>
    ensures { HeadersFound object.now result (list_of name (lookup name (children (node_of object.now)))) }
{
    let Some(list) = object.lookup(name) else {
        return Ok(None);
    };
    validate_node(&list, RESPONSE_HEADER_LIST)?;
    let Some(headers) = list.lookup(HEADERS) else {
        return Ok(None);
    };
    validate_string_array(&headers, name)?;
    Ok(Some(headers.number))
}

// The response part of an object 5. Both lists are looked at before either is found to be one too many.
fn validate_response_certification(certification: &TreeNode) -> Result<Only<Node>, Refusal>
    ensures { Responded certification.now result (response_part (typed_of certification.now)) }
{
    let Some(response) = certification.lookup(RESPONSE_CERTIFICATION) else {
        return Err(refused(
            MISSING_OBJECT_PROPERTY,
            RESPONSE_CERTIFICATION,
            certification.number,
        ));
    };
    validate_node(&response, RESPONSE_CERTIFICATION_OBJECT)?;
    let included = response_headers(&response, CERTIFIED_RESPONSE_HEADERS)?;
    let excluded = response_headers(&response, RESPONSE_HEADER_EXCLUSIONS)?;
    exactly_one(
        included,
        excluded,
        EXTRANEOUS_RESPONSE_CERTIFICATION_PROPERTY,
        MISSING_RESPONSE_CERTIFICATION_PROPERTY,
        response.number,
    )
}

// The policy of the two parts.
fn certified(request: Option<Request>, response: Only<Node>) -> Mapped
    ensures { result ≡ certified_as request response }
{
    let response = match response {
        Only::First(list) => Response {
            kind: ListKind::Inclusions,
            list,
        },
        Only::Second(list) => Response {
            kind: ListKind::Exclusions,
            list,
        },
    };
    match request {
        None => Mapped::ResponseOnly(response),
        Some(request) => Mapped::Full(request, response),
    }
}

// An object 5 with its two parts.
fn validate_certification(certification: &TreeNode) -> Result<Mapped, Refusal>
    ensures { Maps certification.now.table.now result (and_then (typed object Certification (node_of certification.now)) certification_parts) }
{
    validate_node(certification, CERTIFICATION_OBJECT)?;
    let request = validate_request_certification(certification)?;
    let response = validate_response_certification(certification)?;
    Ok(certified(request, response))
}

// An object 2, and in it the policy.
fn validate_arguments(arguments: &TreeNode) -> Result<Mapped, Refusal>
    ensures { Maps arguments.now.table.now result (and_then (typed object ValidationArgs (node_of arguments.now)) validation_args) }
{
    validate_node(arguments, VALIDATION_ARGS)?;
    let only = exactly_one(
        arguments.lookup(NO_CERTIFICATION),
        arguments.lookup(CERTIFICATION),
        EXTRANEOUS_VALIDATION_ARGS_PROPERTY,
        MISSING_VALIDATION_ARGS_PROPERTY,
        arguments.number,
    )?;
    match only {
        Only::First(_) => Ok(Mapped::Skip),
        Only::Second(certification) => validate_certification(&certification),
    }
}

// The root is a function 1, its first argument an object 2.
pub(crate) fn map_cel_ast(text: &[u8], table: &[u32]) -> Result<Mapped, Refusal>
    requires { Held table.now text.now 0 }
    ensures { Maps table.now result (mapping (node_at table.now text.now 0)) }
{
    let root = TreeNode {
        text,
        table,
        number: Node(0),
    };
    validate_node(&root, DEFAULT_CERTIFICATION)?;
    if root.row().past.0 == 1 {
        return Err(refused(MISSING_FUNCTION_PARAMETER, VALIDATION_ARGS, root.number));
    }
    let arguments = TreeNode {
        text,
        table,
        number: Node(1),
    };
    validate_arguments(&arguments)
}
