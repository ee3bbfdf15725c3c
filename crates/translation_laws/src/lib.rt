// No code: the laws of tables, sheets, the engine and the translation, proved of the definitions that
// their promises cite. The theorems to read are in `demands`.
#![tactic(auto)]
