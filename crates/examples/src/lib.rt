// Examples of calls, computed: runs of several teams, moves, views, input in pieces, each refusal, runs that no book gives. Beside
// the definitions and laws of calls they would make every check of those three times as long.
#![tactic(auto)]
