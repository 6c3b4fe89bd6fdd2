// The promise of the whole library in one record (specs/Library), with the starred bench bodies of document 01 as one list under one claim (specs/Starred). No code: it only proves.
#![tactic(auto)]
