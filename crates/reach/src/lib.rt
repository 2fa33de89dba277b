// Which rules a rule reaches through the rules that it names (specs/): definitions and theorems alone.
#![tactic(auto)]
