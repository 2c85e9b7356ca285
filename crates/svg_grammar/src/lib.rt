#![tactic(auto)]

// SVG path data as a grammar: its reader and the text of commands in specs/, that the text reads back in proofs/. It has no code.
