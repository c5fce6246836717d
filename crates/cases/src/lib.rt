// The starred cases of the scope, as one table. The table and its theorem are in specs/; there is no code here.
#![tactic(auto)]
