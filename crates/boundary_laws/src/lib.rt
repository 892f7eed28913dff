// Memory that only the exported functions write stays a sound store: what those without the check ask (specs/).
#![tactic(auto)]
